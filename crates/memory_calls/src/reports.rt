//! Reports: made, copied, changed, as texts; and nodes with their places.
use crate::answers::{tell, tell_change};
use crate::made::{Fill, Made, filled, name, names, span};
use std::alloc::Global;
use tera_report::{ReportError, Spanned, TeraResult};

// A report of these texts, with as many notes as there are parts.
fn sample(alloc: Global, made: &Made) -> TeraResult<ReportError> {
    filled(alloc, plain(alloc, made)?, made.count)
}

impl Fill for ReportError {
    fn put(&mut self, alloc: Global, number: usize) -> TeraResult<()> {
        note_at(self, alloc, name(alloc, number)?)
    }
}

fn note_at(report: &mut ReportError, alloc: Global, label: String) -> TeraResult<()> {
    let answer = report.add_note(alloc, label.as_str(), "b.html", "y", &span());
    drop(label);
    answer
}

fn plain(alloc: Global, made: &Made) -> TeraResult<ReportError> {
    let text = made.text.as_str();
    ReportError::new(alloc, String::from_str(alloc, text)?, text, text, &span())
}

/// Reports that are made, copied and shown.
pub fn tell_reports(rt: &(impl Print + AllocGlobal), made: &Made) -> TeraResult<()> {
    tell(rt, "ReportError::new", plain(rt.alloc(), made));
    tell_bare(rt, made)?;
    tell_sample(rt, sample(rt.alloc(), made)?);
    tell_nodes(rt, made)
}

// Reports that stand on no source.
fn tell_bare(rt: &(impl Print + AllocGlobal), made: &Made) -> TeraResult<()> {
    let alloc = rt.alloc();
    let message = String::from_str(alloc, made.text.as_str())?;
    let bare = ReportError::new_without_source(alloc, message, &span());
    tell(rt, "ReportError::new_without_source", Ok(bare));
    let ended = ReportError::unexpected_end_of_input(alloc, &span());
    tell(rt, "ReportError::unexpected_end_of_input", ended);
    Ok(())
}

fn tell_sample(rt: &(impl Print + AllocGlobal), report: ReportError) {
    let alloc = rt.alloc();
    tell(rt, "ReportError::clone", report.clone(alloc));
    tell(
        rt,
        "ReportError::generate_report",
        report.generate_report(alloc),
    );
    drop(report);
}

/// Reports that are changed.
pub fn tell_changes(rt: &(impl Print + AllocGlobal), made: &Made) -> TeraResult<()> {
    let (alloc, text) = (rt.alloc(), made.text.as_str());
    tell_source(rt, sample(alloc, made)?, text);
    tell_note(rt, sample(alloc, made)?, text);
    Ok(())
}

fn tell_source(rt: &(impl Print + AllocGlobal), report: ReportError, text: &str) {
    let mut report = report;
    let answer = report.set_source(rt.alloc(), "given.html", text);
    tell_change(rt, "ReportError::set_source", answer, report);
}

fn tell_note(rt: &(impl Print + AllocGlobal), report: ReportError, text: &str) {
    let mut report = report;
    let answer = report.add_note(rt.alloc(), text, "given.html", text, &span());
    tell_change(rt, "ReportError::add_note", answer, report);
}

// Nodes with their places.
fn tell_nodes(rt: &(impl Print + AllocGlobal), made: &Made) -> TeraResult<()> {
    let alloc = rt.alloc();
    tell(
        rt,
        "Spanned::new",
        Spanned::new(alloc, names(alloc, made.count)?, span()),
    );
    tell_node(rt, Spanned::new(alloc, names(alloc, made.count)?, span())?);
    Ok(())
}

fn tell_node(rt: &(impl Print + AllocGlobal), node: Spanned<Vec<String>>) {
    let copy = node.clone(rt.alloc());
    drop(node);
    tell(rt, "Spanned::clone", copy);
}
