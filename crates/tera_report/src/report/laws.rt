//! What holds of the definitions of reports.
ghost use Rattle.std.specs.Prelude.{◌≡◌, ◌++◌, ℕ, List, [], ◌∷◌, codes};
ghost use Rattle.tera_report.specs.Parts.{AreParts, parts_of};
ghost use Rattle.tera_report.specs.Report.{report_text, numbered_line, pieces_of};
ghost use Rattle.tera_report.specs.WorkedReports.{with_note, without_source, at_tab, past_the_end};
ghost use Rattle.tera_report.specs.WorkedReports.{at_line_0, at_last_column, past_ascii};
ghost use Rattle.tera_report.specs.WorkedReports.{four_lines};

/// The parts of a text are the only ones: at least one, none with the separator, which joined by it
/// are the text.
pub fn parts_are_the_only_ones()
    ensures are { (separator : ℕ) (text : List ℕ) →
        AreParts separator text (parts_of separator text) }
    ensures only { (separator : ℕ) (text : List ℕ) (parts : List (List ℕ)) →
        AreParts separator text parts → parts ≡ parts_of separator text }
{}

/// These reports have these texts.
pub fn worked_reports_have_these_texts()
    ensures with_note { report_text with_note
        ≡ codes "error: bad\n --> a:1:1\n  |\n1 | xy\n  | ^^"
        ++ codes "\n\nnote: called from b:1:1\n  |\n1 | z\n  | ^" }
    ensures without_source { report_text without_source
        ≡ codes "error: m\n --> :3:1\n  |\n3 | \n  | ^" }
    ensures at_tab { report_text at_tab
        ≡ codes "error: bad\n --> a.html:2:2\n  |\n2 | \t{{ y\n  | \t^^" }
    ensures past_the_end { report_text past_the_end
        ≡ codes "error: bad\n --> a.html:9:1\n  |\n9 | \n  | ^" }
    ensures at_line_0 { report_text at_line_0
        ≡ codes "error: bad\n --> a.html:0:2\n  |\n0 | \n  | ^^" }
    ensures at_last_column { report_text at_last_column
        ≡ codes "error: bad\n --> a.html:1:18446744073709551616\n  |\n1 | x\n  |  ^" }
    ensures past_ascii { report_text past_ascii
        ≡ codes "error: bad line\n --> line 1:1:1\n  |\n1 | frob é\n  | ^^^^^^" }
{}

/// A source of four lines, of which one ends with a carriage return and one is empty.
pub fn sources_have_these_lines()
    ensures lines { pieces_of four_lines
        ≡ codes "foo" ∷ codes "bar\r" ∷ [] ∷ codes "baz" ∷ [] }
    ensures none { numbered_line four_lines 0 ≡ [] }
    ensures second { numbered_line four_lines 2 ≡ codes "bar\r" }
    ensures past { numbered_line four_lines 5 ≡ [] }
    ensures empty { pieces_of [] ≡ [] ∷ [] }
    ensures last { pieces_of (codes "x\n") ≡ codes "x" ∷ [] ∷ [] }
{}
