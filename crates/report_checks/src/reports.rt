//! Reports: their texts, what they are equal to, and writers that fail.
use crate::failing::{fails_after, kind_of};
use crate::held::hold;
use crate::made::{displays, is_answer, owned, shows};
use std::alloc::Global;
use std::io::ErrorKind as Fault;
use tera_report::watch::Watched;
use tera_report::{Error, ErrorKind, ReportError, Span, TeraResult};

// From one column of a line to another.
fn on(line: usize, from: usize, to: usize) -> Span {
    Span {
        start_line: line,
        start_col: from,
        end_line: line,
        end_col: to,
        range: 0..0,
    }
}

// The report of that message in that file on that source, or another one where memory is wanting.
fn made(alloc: Global, message: &str, file: &str, source: &str, span: Span) -> ReportError {
    let lost = ReportError::new_without_source(alloc, owned(alloc, "lost"), &span);
    ReportError::new(alloc, owned(alloc, message), file, source, &span).unwrap_or(lost)
}

// It reads so, also where an error displays it.
fn reads(alloc: Global, report: ReportError, wanted: &str) -> bool {
    let is_so = is_answer(report.generate_report(alloc), wanted);
    match boxed(alloc, report).ok() {
        Some(report) => is_displayed(alloc, report, wanted) && is_so,
        None => false,
    }
}

fn boxed(alloc: Global, report: ReportError) -> TeraResult<Box<ReportError>> {
    Ok(Box::new(alloc, report)?)
}

// An error of that report displays so.
fn is_displayed(alloc: Global, report: Box<ReportError>, wanted: &str) -> bool {
    let error = Error::new(ErrorKind::RenderingError(report));
    let is_so = displays(alloc, &error, wanted);
    drop(error);
    is_so
}

// The report on that source reads so.
fn says(alloc: Global, source: &str, span: Span, wanted: &str) -> bool {
    reads(alloc, made(alloc, "bad", "a.html", source, span), wanted)
}

const TWO_LINES: &str = "x\n\t{{ y";

const FOUR_LINES: &str = "foo\nbar\r\n\nbaz";

#[test]
fn reports_of_spans(rt: HostRuntime) {
    let alloc = rt.alloc();
    let at_tab = "error: bad\n --> a.html:2:2\n  |\n2 | \t{{ y\n  | \t^^";
    let past = "error: bad\n --> a.html:9:1\n  |\n9 | \n  | ^";
    let at_0 = "error: bad\n --> a.html:0:2\n  |\n0 | \n  | ^^";
    let far = "error: bad\n --> a.html:1:18446744073709551616\n  |\n1 | x\n  |  ^";
    let turned = "error: bad\n --> a.html:1:4\n  |\n1 | é\tx\n  |  \t ^";
    hold!(
        &rt,
        [
            says(alloc, TWO_LINES, on(2, 1, 3), at_tab),
            says(alloc, TWO_LINES, on(9, 0, 1), past),
            says(alloc, TWO_LINES, on(0, 1, 3), at_0),
            says(alloc, TWO_LINES, on(1, usize::MAX, 0), far),
            says(alloc, "é\tx", on(1, 3, 2), turned),
        ],
    );
}

#[test]
fn reports_of_lines(rt: HostRuntime) {
    let alloc = rt.alloc();
    let empty = "error: bad\n --> a.html:1:1\n  |\n1 | \n  | ^";
    let last = "error: bad\n --> a.html:2:1\n  |\n2 | \n  | ^";
    let returned = "error: bad\n --> a.html:2:1\n  |\n2 | bar\r\n  | ^^^";
    let third = "error: bad\n --> a.html:3:1\n  |\n3 | \n  | ^";
    let fourth = "error: bad\n --> a.html:4:3\n  |\n4 | baz\n  |   ^";
    let twelfth = "error: bad\n  --> a.html:12:1\n   |\n12 | end\n   | ^^^";
    hold!(
        &rt,
        [
            says(alloc, "", on(1, 0, 1), empty),
            says(alloc, "x\n", on(2, 0, 0), last),
            says(alloc, FOUR_LINES, on(2, 0, 3), returned),
            says(alloc, FOUR_LINES, on(3, 0, 1), third),
            says(alloc, FOUR_LINES, on(4, 2, 3), fourth),
            says(alloc, "\n\n\n\n\n\n\n\n\n\n\nend", on(12, 0, 3), twelfth),
        ],
    );
}

// A report with notes of these labels.
fn noted(alloc: Global, labels: &[&str]) -> ReportError {
    let mut report = made(alloc, "bad", "a", "xy", on(1, 0, 2));
    for label in labels {
        drop(report.add_note(alloc, label, "b", "z", &on(1, 0, 1)));
    }
    report
}

const NOTED: &str =
    "error: bad\n --> a:1:1\n  |\n1 | xy\n  | ^^\n\nnote: called from b:1:1\n  |\n1 | z\n  | ^";

const NOTED_TWICE: &str = "error: bad\n --> a:1:1\n  |\n1 | xy\n  | ^^\n\n\
note: called from b:1:1\n  |\n1 | z\n  | ^\n\nnote: then b:1:1\n  |\n1 | z\n  | ^";

#[test]
fn reports_with_notes(rt: HostRuntime) {
    let alloc = rt.alloc();
    hold!(
        &rt,
        [
            reads(alloc, noted(alloc, &["called from"]), NOTED),
            reads(alloc, noted(alloc, &["called from", "then"]), NOTED_TWICE),
        ],
    );
}

// Without a source, and then with one.
fn is_given_a_source(alloc: Global) -> bool {
    let mut report = ReportError::new_without_source(alloc, owned(alloc, "m"), &on(3, 0, 1));
    let bare = "error: m\n --> :3:1\n  |\n3 | \n  | ^";
    let is_bare = is_answer(report.generate_report(alloc), bare);
    let is_set = is_done(report.set_source(alloc, "f", "\n\né"));
    let is_read = reads(alloc, report, "error: m\n --> f:3:1\n  |\n3 | é\n  | ^");
    is_bare && is_set && is_read
}

// It was done.
fn is_done(answer: TeraResult<()>) -> bool {
    let is_so = answer.is_ok();
    drop(answer);
    is_so
}

fn lends_its_parts(alloc: Global) -> bool {
    let report = made(alloc, "bad", "a", "xy", on(1, 0, 2));
    let is_so = report.message() == "bad"
        && report.filename() == "a"
        && *report.span() == on(1, 0, 2);
    drop(report);
    is_so
}

#[test]
fn parts_of_reports(rt: HostRuntime) {
    let alloc = rt.alloc();
    let span = on(1, 2, 3);
    let lost = made(alloc, "lost", "", "", on(0, 0, 0));
    let ended = ReportError::unexpected_end_of_input(alloc, &span).unwrap_or(lost);
    let at_end = "error: Unexpected end of input\n --> :1:3\n  |\n1 | \n  | ^";
    let error = Error::syntax_error(alloc, owned(alloc, "m"), &span);
    let syntax = "error: m\n --> :1:3\n  |\n1 | \n  | ^";
    hold!(
        &rt,
        [
            is_given_a_source(alloc),
            lends_its_parts(alloc),
            reads(alloc, ended, at_end),
            displays(alloc, &error, syntax),
        ],
    );
    drop(error);
}

// It is its clone, and is not that report.
fn is_its_clone(alloc: Global, report: &ReportError, other: ReportError) -> bool {
    let is_cloned = match report.clone(alloc).ok() {
        Some(copy) => is_that(copy, report),
        None => false,
    };
    is_cloned && !is_that(other, report)
}

fn is_that(copy: ReportError, report: &ReportError) -> bool {
    let is_so = copy == *report;
    drop(copy);
    is_so
}

#[test]
fn reports_are_equal_by_their_parts(rt: HostRuntime) {
    let alloc = rt.alloc();
    let report = noted(alloc, &["a"]);
    hold!(
        &rt,
        [
            is_its_clone(alloc, &report, noted(alloc, &["b"])),
            is_its_clone(alloc, &report, noted(alloc, &[])),
            is_its_clone(alloc, &report, noted(alloc, &["a", "a"])),
            is_its_clone(alloc, &report, made(alloc, "", "a", "xy", on(1, 0, 2))),
        ],
    );
    drop(report);
}

// A report of so many carets finds no memory, and stays as it was.
#[test]
fn a_report_that_is_too_long(rt: HostRuntime) {
    let alloc = rt.alloc();
    let report = made(alloc, "m", "f", "x", on(1, 0, usize::MAX));
    let is_refused = finds_no_memory(alloc, &report);
    let same = made(alloc, "m", "f", "x", on(1, 0, usize::MAX));
    hold!(&rt, [is_refused, is_that(same, &report)]);
    drop(report);
}

// No text is made of the report.
fn finds_no_memory(alloc: Global, report: &ReportError) -> bool {
    match report.generate_report(alloc).err() {
        Some(error) => is_want_of_memory(error),
        None => false,
    }
}

fn is_want_of_memory(error: Error) -> bool {
    let is_so = *error.kind() == ErrorKind::OutOfMemory;
    drop(error);
    is_so
}

// Told to a writer that takes so many bytes it is answered by this.
fn is_answered(alloc: Global, left: usize, wanted: Option<Fault>) -> bool {
    let mut writer = fails_after(left, 3, false);
    let mut watched = Watched::new(&mut writer);
    let report = noted(alloc, &["called from"]);
    let is_so = kind_of(report.tell_to(&mut watched)) == wanted;
    drop(report);
    is_so
}

#[test]
fn writers_that_fail(rt: HostRuntime) {
    let alloc = rt.alloc();
    for left in 0..NOTED.len() {
        assert!(rt;
            is_answered(alloc, left, Some(Fault::StorageFull)),
            "room for {left}"
        );
    }
    assert!(rt; is_answered(alloc, NOTED.len(), None));
}

// Its debug text is that.
fn tells(alloc: Global, report: ReportError, wanted: &str) -> bool {
    let is_so = shows(alloc, &report, wanted);
    drop(report);
    is_so
}

#[test]
fn debug_of_a_report(rt: HostRuntime) {
    let alloc = rt.alloc();
    let wanted = "ReportError { message: \"m\", filename: \"f\", source: \"é\", \
        span:  @ 1:0-1:2 (0..0), notes: [] }";
    let report = made(alloc, "m", "f", "é", on(1, 0, 2));
    assert!(rt; tells(alloc, report, wanted));
}
