// What `sleeporder` tells of itself.

pub const HELP: &str = "\
sleeporder: prints the order in which the devices of the board in board.bin are prepared for sleep.
Reads board.bin in the current folder; where it cannot be read it counts as empty.
Prints a line for each device, each after its superiors and otherwise the least number first:
  NAME SUPERIOR SUPERIOR ...
  the superiors of a device are its parent and the suppliers of its links, by rising number
In the later phases the devices go down from the last line to the first.
Ends with status 0 where it has printed the order.
Refuses a wrong file by one line and status 1: ! 3 NUMBER PLACE
  1: its length; 2: mark or edition; 3: counts; 4: tables; 5: a device; 6: a link
  7: superiors run in a circle; PLACE is then a device's number, and otherwise a byte of the file
";
