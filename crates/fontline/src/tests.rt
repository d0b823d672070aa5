// What no promise says: that printing a line returns no error. Std's promise of a `Display` holds where none is returned, so a `fmt` that prints nothing
// and returns one keeps it. Below are lines of counts and one line of each refusal, by the numbers of the guide's table.
use super::*;
use std::fmt::Write;
use std::process::Abort;

fn expect_printed(rt: &impl Abort, line: Line, want: &str) {
    let mut printed = ArrayString::<LONGEST>::new();
    assert!(rt;
        write!(printed, "{line}").is_ok(),
        "an error in place of {want}"
    );
    assert_eq!(rt; printed.as_str(), want);
    assert_eq!(rt; line.text().as_slice(), want.as_bytes());
}

fn expect_refusal(rt: &impl Abort, refusal: ReadError, want: &str) {
    expect_printed(rt, Line(Err(NoFont::Text(refusal))), want);
}

#[test]
fn prints_each_line(rt: HostRuntime) {
    expect_printed(&rt, Line(Ok(0)), "cells 62 bytes 0\n");
    expect_printed(&rt, Line(Ok(8192)), "cells 62 bytes 8192\n");
    expect_printed(&rt, Line(Ok(u32::MAX)), "cells 62 bytes 4294967295\n");
    expect_refusal(&rt, ReadError::NoRoom, "refused 6 at 0\n");
    expect_refusal(&rt, ReadError::TooLong, "refused 7 at 0\n");
    expect_refusal(&rt, ReadError::BadCharacter(50), "refused 19 at 50\n");
    expect_refusal(&rt, ReadError::BadShape(44), "refused 20 at 44\n");
    expect_refusal(&rt, ReadError::BadSum(88), "refused 8 at 88\n");
    expect_refusal(&rt, ReadError::BadType(0), "refused 9 at 0\n");
    expect_refusal(&rt, ReadError::PastEnd(0), "refused 10 at 0\n");
    expect_refusal(&rt, ReadError::GivenTwice(44), "refused 11 at 44\n");
    expect_refusal(&rt, ReadError::BadEnd(22528), "refused 12 at 22528\n");
    let refusal = NoFont::Image(NotAFont(1618));
    expect_printed(&rt, Line(Err(refusal)), "refused 13 at 1618\n");
}

#[test]
fn prints_what_was_checked(rt: HostRuntime) {
    expect_printed(&rt, check(b":00000001FF\n"), "cells 62 bytes 0\n");
    expect_printed(&rt, check(b""), "refused 12 at 0\n");
    expect_printed(&rt, check(b"; a remark\n"), "refused 19 at 0\n");
    let text = b":0106520000A7\n:00000001FF\n";
    expect_printed(&rt, check(text), "refused 13 at 1618\n");
}

// A writer without room for the line gives its error, and keeps nothing of the line.
#[test]
fn tells_the_writers_error(rt: HostRuntime) {
    let mut printed = ArrayString::<16>::new();
    let line = Line(Ok(0));
    assert!(rt; write!(printed, "{line}").is_err());
    assert_eq!(rt; printed.as_str(), "");
}
