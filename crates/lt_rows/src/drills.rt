//! The generator of the drill, and scrambled images.

use lt_drill::{Draws, scramble};
use lt_match::carries;
use lt_principal::principal;
use std::alloc::AllocError;
use std::test::Fail;

#[test]
fn first_draws(rt: HostRuntime) -> Result<(), Fail> {
    assert_eq!(rt; Draws::new(1).next(1 << 31), 908_834_774);
    assert_eq!(rt; Draws::new(1).next(1000), 774);
    Ok(())
}

#[test]
fn scrambles_are_images(rt: HostRuntime) -> Result<(), Fail> {
    let alloc = rt.alloc();
    for d in 2..6_u8 {
        let Ok(t) = principal(alloc, d) else {
            return Err(Fail::from(AllocError));
        };
        let Ok((matrix, image)) = scramble(alloc, &mut Draws::new(d as u64), &t) else {
            return Err(Fail::from(AllocError));
        };
        assert!(rt; carries(&matrix, &t, &image));
    }
    Ok(())
}
