//! Numbers that workers draw.

use lt_claim::Claims;
use std::alloc::AllocError;
use std::test::Fail;

#[test]
fn numbers_are_drawn_in_order(rt: HostRuntime) -> Result<(), Fail> {
    let Ok((claims, mut pass)) = Claims::new(rt.alloc(), 10) else {
        return Err(Fail::from(AllocError));
    };
    assert_eq!(rt; claims.draw(&mut pass), 0);
    assert_eq!(rt; claims.draw(&mut pass), 1);
    let Ok(mut given) = claims.split(&mut pass, 4) else {
        return Err(Fail::from(AllocError));
    };
    assert_eq!(rt; given.left(), 4);
    assert_eq!(rt; claims.draw(&mut given), 2);
    claims.join(&mut pass, given);
    assert_eq!(rt; pass.left(), 7);
    let count = claims.close(pass);
    assert!(rt; count.is_ok_and(|count| count == 3));
    Ok(())
}
