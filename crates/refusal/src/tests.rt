// Lines of a layer that has a name here, and of others.
use crate::{Layer, Refusal};
use std::test::Fail;

fn line_of(rt: &HostRuntime, layer: u8) -> Result<String, Fail> {
    let refusal = Refusal {
        layer: Layer::from(layer),
        number: 200,
        place: 4_294_967_295,
    };
    Ok(refusal.to_string(rt.alloc())?)
}

#[test]
fn a_layer_is_printed_by_its_number(rt: HostRuntime) -> Result<(), Fail> {
    assert!(rt; line_of(&rt, 0)?.as_str() == "! 0 200 4294967295");
    assert!(rt; line_of(&rt, 2)?.as_str() == "! 2 200 4294967295");
    assert!(rt; line_of(&rt, 255)?.as_str() == "! 255 200 4294967295");
    Ok(())
}

#[test]
fn a_named_layer_is_the_same_by_its_number(rt: HostRuntime) {
    assert!(rt; Layer::from(1) == Layer::Bank);
    assert!(rt; Layer::from(2) == Layer::Engine);
    assert!(rt; Layer::from(3) == Layer::File);
    assert!(rt; Layer::from(4) == Layer::Other { number: 4 });
    assert!(rt; Layer::from(4).number() == 4);
}
