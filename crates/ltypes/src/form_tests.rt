//! The commands on forms and their vectors, and the one that merges.

use super::read_tests::{TWINS, changed, told};
use std::alloc::{AllocError, Global};
use std::sync::Wait;
use std::test::Fail;
use std::thread::Threads;

/// Words, the status, and what out and err then hold.
type Row<'a> = (&'a [&'a str], u8, &'a str, &'a str);

/// Whether each row holds on a text.
fn hold<R: Threads + Wait + Sync>(
    rt: &R,
    alloc: Global,
    text: &[u8],
    rows: &[Row<'_>],
) -> Result<bool, AllocError> {
    for (words, code, out, err) in rows {
        if !told(rt, alloc, words, text)?.is(*code, out.as_bytes(), err) {
            return Ok(false);
        }
    }
    Ok(true)
}

#[test]
fn walks_to_forms(rt: HostRuntime) -> Result<(), Fail> {
    let rows: [Row<'_>; 7] = [
        (
            &["locate", "2", "10", "2", "2", "2"],
            0,
            "located after 1\nsimplices 2\n0 0 0 1 1 0\n0 0 1 -1 1 0\n",
            "",
        ),
        (
            &["locate", "2", "0", "2", "2", "2"],
            9,
            "",
            "stopped after 0: steps\n",
        ),
        (
            &["locate", "2", "10", "1", "0", "1"],
            8,
            "",
            "on wall: 0 -1 0\n",
        ),
        (
            &["locate", "2", "10", "1", "-3", "1"],
            7,
            "",
            "not positive: 1 1\n",
        ),
        (
            &["cover", "2", "10", "402", "-2", "402"],
            10,
            "",
            "long edge: 0 1 402\n",
        ),
        (
            &["shortest", "2", "10", "2", "-2", "3"],
            0,
            "least 2\nvectors 1\n1 0\n",
            "",
        ),
        (
            &["shortest", "2", "10", "2", "-2", "2"],
            0,
            "least 2\nvectors 3\n0 1\n1 0\n1 1\n",
            "",
        ),
    ];
    assert!(rt; hold(&rt, rt.alloc(), b"", &rows)?);
    Ok(())
}

/// At the principal form of n variables the squared covering radius is n (n + 2) / 12.
#[test]
fn covering_radii_of_principal_forms(rt: HostRuntime) -> Result<(), Fail> {
    let rows: [(&[&str], &str); 5] = [
        (
            &["cover", "2", "0", "2", "-2", "2"],
            "located after 0\nradius 2/3\nclass",
        ),
        (
            &["cover", "3", "0", "3", "-2", "-2", "3", "-2", "3"],
            "located after 0\nradius 5/4\nclass",
        ),
        (
            &[
                "cover", "4", "0", "4", "-2", "-2", "-2", "4", "-2", "-2", "4", "-2", "4",
            ],
            "located after 0\nradius 2/1\nclass",
        ),
        (
            &[
                "cover", "5", "0", "5", "-2", "-2", "-2", "-2", "5", "-2", "-2", "-2", "5", "-2",
                "-2", "5", "-2", "5",
            ],
            "located after 0\nradius 35/12\nclass",
        ),
        (
            &[
                "cover", "6", "0", "6", "-2", "-2", "-2", "-2", "-2", "6", "-2", "-2", "-2", "-2",
                "6", "-2", "-2", "-2", "6", "-2", "-2", "6", "-2", "6",
            ],
            "located after 0\nradius 4/1\nclass",
        ),
    ];
    for (words, front) in &rows {
        let said = told(&rt, rt.alloc(), words, b"")?;
        assert_eq!(rt; said.code, 0);
        assert!(rt; said.out.bytes().starts_with(front.as_bytes()));
    }
    Ok(())
}

#[test]
fn sections_of_cones(rt: HostRuntime) -> Result<(), Fail> {
    let rows: [Row<'_>; 3] = [
        (
            &["section", "2", "10", "2", "2", "-2", "2", "1", "0", "0"],
            0,
            "located after 0\nrows 2\ndead 1 0 at 0 1 form 1 0 0 vector 0 1\nlive 1 1 at 1 -1 form 1 -2 2\n\
            facets 2 dead 1\n",
            "",
        ),
        (
            &["section", "2", "10", "1", "2", "-2", "2"],
            0,
            "located after 0\nrows 1\ndead 1 at 0 form 0 0 0 vector 0 1\nfacets 1 dead 1\n",
            "",
        ),
        (
            &["section", "2", "10", "1", "1", "0", "1"],
            8,
            "",
            "on wall: 0 -1 0\n",
        ),
    ];
    assert!(rt; hold(&rt, rt.alloc(), b"", &rows)?);
    Ok(())
}

#[test]
fn vectors_of_an_entry(rt: HostRuntime) -> Result<(), Fail> {
    let text = changed(rt.alloc(), &[])?;
    let rows: [Row<'_>; 2] = [
        (&["relevant", "2", "0"], 0, "vectors 3\n0 1\n1 0\n1 1\n", ""),
        (&["relevant", "2", "5"], 11, "", "no entry 1\n"),
    ];
    assert!(rt; hold(&rt, rt.alloc(), &text, &rows)?);
    Ok(())
}

/// An atlas merged with itself stays; a part that is missing or false is refused.
#[test]
fn two_texts_to_one(rt: HostRuntime) -> Result<(), Fail> {
    let alloc = rt.alloc();
    let once = changed(alloc, &[])?;
    let mut twice = changed(alloc, &[])?;
    twice.extend_from_slice(&once)?;
    let mut after_twins = Vec::from_slice(alloc, TWINS.as_bytes())?;
    after_twins.extend_from_slice(&once)?;
    assert!(rt; told(&rt, alloc, &["merge", "2"], &twice)?.is(0, &once, ""));
    assert!(rt;
        told(&rt, alloc, &["merge", "2"], &once)?.is(13, b"", "part 2 refused: syntax line 1\n")
    );
    assert!(rt;
        told(&rt, alloc, &["merge", "2"], &after_twins)?.is(
            13,
            b"",
            "part 1 refused: twin 0 1 1 0 1 1\n"
        )
    );
    Ok(())
}
