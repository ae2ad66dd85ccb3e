//! The lines of a source.
use crate::held::hold;
use tera_report::report::from_line;

const SOURCE: &str = "foo\nbar\r\n\nbaz";

// The line of that number starts at that byte.
fn starts_at(number: usize, start: usize) -> bool {
    match from_line(SOURCE, number) {
        Some(rest) => rest.len() == SOURCE.len().saturating_sub(start),
        None => false,
    }
}

// There is no fifth line.
#[test]
fn can_get_line_starts(rt: HostRuntime) {
    hold!(
        &rt,
        [
            starts_at(1, 0),
            starts_at(2, 4),
            starts_at(3, 9),
            starts_at(4, 10),
            from_line(SOURCE, 0).is_none(),
            from_line(SOURCE, 5).is_none(),
        ],
    );
}
