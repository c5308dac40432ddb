//! What is read: true and false texts, and sources and sinks that fail.

use super::{OpenGate, ltypes};
use lt_grammar::{ParseError, parse_atlas, parse_atlas_1};
use lt_io::{MemorySink, MemorySource, SliceSource, Source};
use std::alloc::{AllocError, Global};
use std::sync::Wait;
use std::test::Fail;
use std::thread::Threads;

/// The lines of the whole atlas of dimension 2.
const LINES: [&str; 16] = [
    "ltypes 2",
    "dimension 2",
    "entries 1",
    "entry 0 start",
    "simplices 1",
    "0 0 0 1 1 1",
    "regulators 3",
    "facet 0 -1 0 wall 1 0 1",
    "facet 0 1 2 wall 2 -2 1",
    "facet 2 1 0 wall 1 -2 2",
    "form 1 -1 1",
    "marks 3",
    "cross 0 1 0 1 1",
    "cross 0 1 0 -1 1",
    "cross 0 0 1 1 -1",
    "end",
];

/// An atlas of dimension 2 with two equivalent entries; all else is right.
pub const TWINS: &str =
    "ltypes 2\ndimension 2\nentries 2\nentry 0 start\nsimplices 1\n0 0 0 1 1 1\n\
    regulators 3\nfacet 0 -1 0 wall 1 0 1\nfacet 0 1 2 wall 2 -2 1\nfacet 2 1 0 wall 1 -2 2\nform 1 -1 1\n\
    marks 3\ncross 1 1 0 0 1\nopen\nopen\nentry 1 from 0 0\nsimplices 1\n0 0 0 1 1 0\n\
    regulators 3\nfacet 0 -1 2 wall 2 2 1\nfacet 0 1 0 wall 1 0 1\nfacet 2 -1 0 wall 1 2 2\nform 1 1 1\n\
    marks 3\nopen\nopen\nopen\nend\n";

/// The same, whose second entry names another facet.
const OTHER_ORIGIN: &str =
    "ltypes 2\ndimension 2\nentries 2\nentry 0 start\nsimplices 1\n0 0 0 1 1 1\n\
    regulators 3\nfacet 0 -1 0 wall 1 0 1\nfacet 0 1 2 wall 2 -2 1\nfacet 2 1 0 wall 1 -2 2\nform 1 -1 1\n\
    marks 3\ncross 1 1 0 0 1\nopen\nopen\nentry 1 from 0 1\nsimplices 1\n0 0 0 1 1 0\n\
    regulators 3\nfacet 0 -1 2 wall 2 2 1\nfacet 0 1 0 wall 1 0 1\nfacet 2 -1 0 wall 1 2 2\nform 1 1 1\n\
    marks 3\nopen\nopen\nopen\nend\n";

/// The same, whose second entry lists the classes of the first.
const OTHER_CLASSES: &str =
    "ltypes 2\ndimension 2\nentries 2\nentry 0 start\nsimplices 1\n0 0 0 1 1 1\n\
    regulators 3\nfacet 0 -1 0 wall 1 0 1\nfacet 0 1 2 wall 2 -2 1\nfacet 2 1 0 wall 1 -2 2\nform 1 -1 1\n\
    marks 3\ncross 1 1 0 0 1\nopen\nopen\nentry 1 from 0 0\nsimplices 1\n0 0 0 1 1 1\n\
    regulators 3\nfacet 0 -1 2 wall 2 2 1\nfacet 0 1 0 wall 1 0 1\nfacet 2 -1 0 wall 1 2 2\nform 1 1 1\n\
    marks 3\nopen\nopen\nopen\nend\n";

/// How the program ends, and what out and err then hold.
#[derive(Drop)]
pub struct Said {
    pub code: u8,
    pub out: MemorySink,
    pub err: MemorySink,
}

impl Said {
    pub fn is(&self, code: u8, out: &[u8], err: &str) -> bool {
        self.code == code && self.out.bytes() == out && self.err.bytes() == err.as_bytes()
    }
}

/// What the program says on words and a source, where out fails at these calls, of 7 bytes each.
fn outcome<R: Threads + Wait + Sync, S: Source>(
    rt: &R,
    alloc: Global,
    words: &[&str],
    source: &mut S,
    fail: &[u64],
) -> Result<Said, AllocError> {
    let fail = Vec::from_slice(alloc, fail)?;
    let piece = if fail.is_empty() { 5000 } else { 7 };
    let (Ok(mut out), Ok(mut err)) = (
        MemorySink::new(alloc, 20_000, piece, fail),
        MemorySink::new(alloc, 200, 200, Vec::new(alloc)),
    ) else {
        return Err(AllocError);
    };
    let code = ltypes(rt, alloc, words, source, &mut out, &mut err, &OpenGate).code;
    Ok(Said { code, out, err })
}

/// What the program says on words and a text.
pub fn told<R: Threads + Wait + Sync>(
    rt: &R,
    alloc: Global,
    words: &[&str],
    text: &[u8],
) -> Result<Said, AllocError> {
    outcome(rt, alloc, words, &mut SliceSource::new(text), &[])
}

/// The atlas of dimension 2 with other lines in place of those with these numbers, counted from 1.
pub fn changed(alloc: Global, changes: &[(usize, &str)]) -> Result<Vec<u8>, AllocError> {
    let mut text = Vec::new(alloc);
    for i in 0..LINES.len() {
        let mut line = LINES[i];
        for (number, other) in changes {
            if *number == i + 1 {
                line = *other;
            }
        }
        text.extend_from_slice(line.as_bytes())?;
        text.push(b'\n')?;
    }
    Ok(text)
}

#[test]
fn false_lines(rt: HostRuntime) -> Result<(), Fail> {
    let rows = [
        (1, "ltypes 2\r", "refused: syntax line 1\n"),
        (1, "ltypes 1", "refused: syntax line 1\n"),
        (2, "dimension 3", "refused: syntax line 6\n"),
        (3, "entries 0", "refused: syntax line 3\n"),
        (3, "entries 2", "refused: syntax line 16\n"),
        (5, "simplices 2", "refused: syntax line 7\n"),
        (5, "simplices 134217728", "refused: syntax line 7\n"),
        (6, "0 0 1 0 1 1", "refused: not principal\n"),
        (7, "regulators 2", "refused: syntax line 10\n"),
        (7, "regulators 4", "refused: syntax line 11\n"),
        (11, "form 1 -0 1", "refused: syntax line 11\n"),
        (12, "marks 2", "refused: syntax line 12\n"),
        (8, "facet 0 -1 0 wall 2 0 2", "refused: cone 0 0\n"),
        (8, "facet 0 -1 0 wall 1 0 0", "refused: cone 0 0\n"),
        (11, "form 2 -2 2", "refused: cone 0 3\n"),
        (13, "cross 1 1 0 1 1", "refused: cross 0 0\n"),
        (13, "cross 0 1 0 0 1", "refused: cross 0 0\n"),
        (13, "cross 0 2 0 0 1", "refused: cross 0 0\n"),
    ];
    for (number, line, err) in &rows {
        let text = changed(rt.alloc(), &[(*number, *line)])?;
        let said = told(&rt, rt.alloc(), &["check", "2"], &text)?;
        assert!(rt; said.is(3, b"", err));
    }
    Ok(())
}

#[test]
fn false_texts(rt: HostRuntime) -> Result<(), Fail> {
    let alloc = rt.alloc();
    let check = ["check", "2"];
    let exchanged = changed(alloc, &[(8, LINES[8]), (9, LINES[7])])?;
    assert!(rt; told(&rt, alloc, &check, &exchanged)?.is(3, b"", "refused: cone 0 0\n"));
    let both = changed(
        alloc,
        &[(8, "facet 0 -1 0 wall 1 0 0"), (13, "cross 0 2 0 0 1")],
    )?;
    assert!(rt; told(&rt, alloc, &check, &both)?.is(3, b"", "refused: cone 0 0\n"));
    let other = changed(alloc, &[(6, "0 0 0 1 1 0")])?;
    assert!(rt; told(&rt, alloc, &check, &other)?.is(3, b"", "refused: not principal\n"));
    let mut longer = changed(alloc, &[])?;
    assert!(rt;
        told(&rt, alloc, &["check", "3"], &longer)?.is(3, b"", "refused: other dimension 2\n")
    );
    longer.push(b'x')?;
    assert!(rt; told(&rt, alloc, &check, &longer)?.is(3, b"", "refused: syntax line 17\n"));
    let rows = [
        (TWINS, "refused: twin 0 1 1 0 1 1\n"),
        (OTHER_ORIGIN, "refused: origin 1\n"),
        (OTHER_CLASSES, "refused: simplices 1\n"),
        ("", "refused: syntax line 1\n"),
    ];
    for (text, err) in &rows {
        assert!(rt; told(&rt, alloc, &check, text.as_bytes())?.is(3, b"", err));
    }
    Ok(())
}

/// A front of a text is refused at the line behind its last line feed.
#[test]
fn fronts_of_a_text(rt: HostRuntime) -> Result<(), Fail> {
    let alloc = rt.alloc();
    let text = changed(alloc, &[])?;
    for end in 0..text.len() {
        let front = &text[..end];
        let feeds = front.iter().filter(|byte| **byte == b'\n').count() as u64;
        let mut err = Vec::new(alloc);
        err.extend_from_slice(b"refused: syntax line ")?;
        let mut buffer = itoa::Buffer::new();
        err.extend_from_slice(buffer.format(feeds.saturating_add(1)).as_bytes())?;
        err.push(b'\n')?;
        let said = told(&rt, alloc, &["check", "2"], front)?;
        assert!(rt;
            said.code == 3 && said.out.bytes().is_empty() && said.err.bytes() == err.as_slice()
        );
    }
    Ok(())
}

/// More bytes than the limit are refused before they are looked at.
#[test]
fn a_long_input(rt: HostRuntime) -> Result<(), Fail> {
    let alloc = rt.alloc();
    let long = vec![in alloc; b'x'; 67_108_865]?;
    let said = told(&rt, alloc, &["check", "2"], &long)?;
    assert!(rt; said.is(3, b"", "refused: too long\n"));
    Ok(())
}

/// Wide and heavy marks are read as open.
#[test]
fn marks_that_are_read_as_open(rt: HostRuntime) -> Result<(), Fail> {
    for line in ["open", "heavy 0", "wide 1 0 0 0 0 0 0"] {
        let text = changed(rt.alloc(), &[(13, line)])?;
        let said = told(&rt, rt.alloc(), &["check", "2"], &text)?;
        assert!(rt; said.is(0, b"ok types 1 facets 3 crossed 2 undecided 1\n", ""));
    }
    Ok(())
}

#[test]
fn texts_that_are_taken_up(rt: HostRuntime) -> Result<(), Fail> {
    let alloc = rt.alloc();
    let whole = changed(alloc, &[])?;
    let resume = ["run", "2", "--resume"];
    let checked = told(&rt, alloc, &["check", "2"], &whole)?;
    assert!(rt; checked.is(0, b"ok types 1 facets 3 crossed 3 undecided 0\n", ""));
    let summary = told(&rt, alloc, &["summary", "2", "--resume"], &whole)?;
    assert!(rt;
        summary
            .out
            .bytes()
            .ends_with(b"\ntypes 1 facets 3 crossed 3 undecided 0\n")
    );
    let open = changed(alloc, &[(13, "open")])?;
    assert!(rt; told(&rt, alloc, &resume, &open)?.is(0, &whole, ""));
    let other = changed(alloc, &[(13, "cross 0 -1 0 -1 -1")])?;
    assert!(rt; told(&rt, alloc, &resume, &other)?.is(0, &other, ""));
    assert!(rt; told(&rt, alloc, &resume, b"")?.is(3, b"", "refused: syntax line 1\n"));
    let begun = told(&rt, alloc, &["run", "4", "--steps", "10"], b"")?;
    let ended = told(&rt, alloc, &["run", "--resume", "4"], begun.out.bytes())?;
    let direct = told(&rt, alloc, &["run", "4"], b"")?;
    assert!(rt; begun.code == 1 && ended.is(0, direct.out.bytes(), ""));
    let checked = told(&rt, alloc, &["check", "4"], ended.out.bytes())?;
    assert!(rt; checked.is(0, b"ok types 3 facets 30 crossed 30 undecided 0\n", ""));
    Ok(())
}

/// Wherever out fails, it holds a front of the text; wherever the source fails, nothing is written.
#[test]
fn faults_of_source_and_sink(rt: HostRuntime) -> Result<(), Fail> {
    let alloc = rt.alloc();
    let whole = changed(alloc, &[])?;
    for i in 0..33_u64 {
        let said = outcome(&rt, alloc, &["run", "2"], &mut SliceSource::new(b""), &[i])?;
        let held = said.out.bytes();
        assert!(rt; said.code == 6 && said.err.bytes() == b"write fault\n".as_slice());
        assert!(rt; held.len() as u64 <= 7 * i && whole.starts_with(held));
    }
    for i in 0..34_u64 {
        let bytes = Vec::from_slice(alloc, &whole)?;
        let mut source = MemorySource::new(bytes, 7, Vec::from_slice(alloc, &[i])?);
        let said = outcome(&rt, alloc, &["run", "2", "--resume"], &mut source, &[])?;
        assert!(rt; said.is(5, b"", "read fault\n"));
    }
    let bytes = Vec::from_slice(alloc, &whole)?;
    let mut source = MemorySource::new(bytes, 100, Vec::from_slice(alloc, &[1])?);
    let said = outcome(&rt, alloc, &["check", "2"], &mut source, &[])?;
    assert!(rt; said.is(5, b"", "read fault\n"));
    Ok(())
}

/// The atlas of dimension 2 in version 1 of the text, where this is the mark of its first facet.
fn first_version(alloc: Global, mark: &str) -> Result<Vec<u8>, AllocError> {
    let start =
        b"ltypes 1\ndimension 2\nentries 1\nentry 0 start\nsimplices 2\n0 0 0 1 1 1\n0 0 1 0 1 1\n";
    let cone =
        b"regulators 3\nfacet 0 -1 0 wall 1 0 1\nfacet 0 1 2 wall 2 -2 1\nfacet 2 1 0 wall 1 -2 2\nform 1 -1 1\n";
    let mut text = Vec::from_slice(alloc, start)?;
    text.extend_from_slice(cone)?;
    text.extend_from_slice(b"marks 3\n")?;
    text.extend_from_slice(mark.as_bytes())?;
    text.extend_from_slice(b"\ncross 0 1 0 -1 1\ncross 0 0 1 1 -1\nend\n")?;
    Ok(text)
}

/// A text of version 1 is read by `convert` alone, which writes version 2; wide and heavy marks become open.
#[test]
fn texts_of_the_first_version(rt: HostRuntime) -> Result<(), Fail> {
    let alloc = rt.alloc();
    let convert = ["convert", "2"];
    let first = first_version(alloc, "cross 0 1 0 1 1")?;
    let second = changed(alloc, &[])?;
    assert!(rt; first.len() == 240 && second.len() == 228);
    assert!(rt; told(&rt, alloc, &convert, &first)?.is(0, &second, ""));
    assert!(rt; told(&rt, alloc, &convert, &second)?.is(3, b"", "refused: syntax line 1\n"));
    assert!(rt; told(&rt, alloc, &["check", "2"], &first)?.is(3, b"", "refused: syntax line 1\n"));
    let open = changed(alloc, &[(13, "open")])?;
    for mark in ["open", "heavy 0", "wide 1 0 0 0 0 0 0"] {
        let text = first_version(alloc, mark)?;
        assert!(rt; told(&rt, alloc, &convert, &text)?.is(0, &open, ""));
    }
    let wrong = first_version(alloc, "cross 0 2 0 0 1")?;
    assert!(rt; told(&rt, alloc, &convert, &wrong)?.is(3, b"", "refused: cross 0 0\n"));
    assert!(rt;
        told(&rt, alloc, &["convert", "3"], &first)?.is(3, b"", "refused: other dimension 2\n")
    );
    Ok(())
}

/// The two versions have one grammar but for the first line; version 1 lists all classes, version 2 half of them.
#[test]
fn texts_that_are_parsed(rt: HostRuntime) -> Result<(), Fail> {
    let alloc = rt.alloc();
    let first = first_version(alloc, "open")?;
    let second = changed(alloc, &[(13, "open")])?;
    let (Ok(all), Ok(half)) = (
        parse_atlas_1(alloc, &first, 2),
        parse_atlas(alloc, &second, 2),
    ) else {
        return Err(Fail::from(AllocError));
    };
    assert!(rt; all.d == 2 && all.entries.len() == 1 && all.marks.len() == 1);
    assert!(rt; half.d == 2 && half.entries.len() == 1 && half.marks.len() == 1);
    for entry in &all.entries {
        assert!(rt; entry.classes.len() == 2);
    }
    for entry in &half.entries {
        assert!(rt; entry.classes.len() == 1);
    }
    let (Err(one), Err(two)) = (
        parse_atlas_1(alloc, &second, 2),
        parse_atlas(alloc, &first, 2),
    ) else {
        return Err(Fail::from(AllocError));
    };
    assert!(rt; one == ParseError::Syntax { line: 1 } && two == ParseError::Syntax { line: 1 });
    Ok(())
}
