// What `sleeprun` tells of itself.

pub const HELP: &str = "\
sleeprun: puts the board in board.bin to sleep and wakes it, with the faults in sheet.bin.
Reads both files in the current folder; one that cannot be read counts as empty.
Prints the journal, a line for each time a device is called, the oldest first:
  NAME CALLBACK CODE    CODE is 0, or below zero the errno with which NAME refused
  going down: prepare, suspend, suspend_late, suspend_noirq
  coming up: resume_noirq, resume_early, resume, complete
Prints last how it ended: = KIND ERRNO DEVICE PHASE TAKEN, with - for no device or phase.
  slept: all slept; fault: DEVICE refused in PHASE with ERRNO, after TAKEN lowerings
Refuses a wrong file by one line and status 1: ! 3 NUMBER PLACE
  1 to 6: board.bin, at byte PLACE; 7: device PLACE hangs on a circle; 8: sheet.bin's length
";
