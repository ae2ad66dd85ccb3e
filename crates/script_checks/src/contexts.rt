//! Contexts by their entries, compared, extended and copied; what Debug tells of answers; and what
//! is lent.
use made_values::{safe, shows};
use std::alloc::{AllocError, Global};
use tera_context::{Command, Context, Step, context, lend, run, step};
use tera_report::TeraResult;
use tera_script::{Reading, read_line};
use tera_values::{HashState, Value};

// What was made, or no name.
fn or_empty(alloc: Global, made: TeraResult<Context>) -> Context {
    made.unwrap_or(Context::new(alloc))
}

// They are equal.
fn are_equal(left: Context, right: Context) -> bool {
    let is_so = left == right;
    drop(left);
    drop(right);
    is_so
}

fn entries(alloc: Global) -> TeraResult<Context> {
    Ok(context! { alloc; foo => "Bar", con => &69 })
}

// Local names are captured.
fn local_names(alloc: Global) -> TeraResult<Context> {
    let foo = "Bar";
    let con = 69;
    Ok(context! { alloc; foo, con => &con, })
}

fn many_commas(alloc: Global) -> TeraResult<Context> {
    let foo = "Bar";
    Ok(context! { alloc; foo,,, con => 69i64,, })
}

// What two insertions give.
fn by_hand(alloc: Global) -> Context {
    let mut context = Context::new(alloc);
    drop(context.insert("foo", "Bar"));
    drop(context.insert("con", &69));
    context
}

// It has two entries, and is what two insertions give.
fn is_by_hand(alloc: Global, made: TeraResult<Context>) -> bool {
    let context = or_empty(alloc, made);
    let has_both = has_entries(alloc, &context);
    are_equal(context, by_hand(alloc)) && has_both
}

// The names are there with their values, and no other is.
fn has_entries(alloc: Global, context: &Context) -> bool {
    context.contains_key("con")
        && context.get("fo").is_none()
        && shows(
            alloc,
            &context.get("foo"),
            "Some(Value { inner: String(false, \"Bar\") })",
        )
        && shows(alloc, &context.get("con"), "Some(Value { inner: I64(69) })")
}

#[test]
fn context_macro_builder(rt: HostRuntime) {
    let alloc = rt.alloc();
    assert!(rt; is_by_hand(alloc, entries(alloc)));
}

#[test]
fn context_macro_can_capture_local_name(rt: HostRuntime) {
    let alloc = rt.alloc();
    assert!(rt; is_by_hand(alloc, local_names(alloc)));
}

fn ages(alloc: Global) -> TeraResult<Context> {
    Ok(context! { alloc; name => "John Doe", age => &42, })
}

// What was found is that number.
fn is_number(found: Option<&Value>, number: i64) -> bool {
    let wanted = Value::from(number);
    let is_so = found == Some(&wanted);
    drop(wanted);
    is_so
}

#[test]
fn context_tests(rt: HostRuntime) {
    let context = or_empty(rt.alloc(), ages(rt.alloc()));
    assert!(rt; context.contains_key("age") && is_number(context.get("age"), 42));
    drop(context);
}

#[test]
fn any_number_of_commas_stands_behind_an_entry(rt: HostRuntime) {
    let alloc = rt.alloc();
    assert!(rt; is_by_hand(alloc, many_commas(alloc)));
}

// A context in which each name is in the place of a number.
fn numbered(alloc: Global, of: &[(&str, i64)]) -> Context {
    let mut context = Context::new(alloc);
    for (name, number) in of {
        drop(context.insert_value(*name, Value::from(*number)));
    }
    context
}

// The target with the source.
fn extended(target: Context, source: Context) -> Context {
    let mut target = target;
    drop(target.extend(source));
    target
}

// The target with the source is a context of these, each of which is there with its number.
fn extends(alloc: Global, names: [&[(&str, i64)]; 3]) -> bool {
    let [target, source, wanted] = names;
    let made = extended(numbered(alloc, target), numbered(alloc, source));
    let are_there = have_numbers(&made, wanted);
    are_equal(made, numbered(alloc, wanted)) && are_there
}

fn have_numbers(context: &Context, wanted: &[(&str, i64)]) -> bool {
    for (name, number) in wanted {
        if !is_number(context.get(*name), *number) {
            return false;
        }
    }
    true
}

#[test]
fn example_of_extend(rt: HostRuntime) {
    let alloc = rt.alloc();
    let (first, later) = ([("a", 1), ("b", 2)], [("b", 3), ("d", 4)]);
    assert!(rt; extends(alloc, [&first, &later, &[("a", 1), ("b", 3), ("d", 4)]]));
    assert!(rt; extends(alloc, [&first, &[], &first]));
    assert!(rt; extends(alloc, [&[], &first, &first]));
}

// They are not equal.
fn are_unequal(alloc: Global, left: &[(&str, i64)], right: &[(&str, i64)]) -> bool {
    !are_equal(numbered(alloc, left), numbered(alloc, right))
}

fn of_a_text(alloc: Global) -> TeraResult<Context> {
    Ok(context! { alloc; n => 1u64, t => "<" })
}

fn of_a_marked_text(alloc: Global) -> TeraResult<Context> {
    Ok(context! { alloc; n => 1i128, t => safe(alloc, "<") })
}

// The widths of numbers and the flags of texts do not count.
#[test]
fn contexts_are_equal_by_meaning(rt: HostRuntime) {
    let alloc = rt.alloc();
    let (plain, marked) = (of_a_text(alloc), of_a_marked_text(alloc));
    assert!(rt; plain.is_ok() && marked.is_ok());
    assert!(rt; are_equal(or_empty(alloc, plain), or_empty(alloc, marked)));
    assert!(rt; are_unequal(alloc, &[("a", 1)], &[("b", 1)]));
    assert!(rt; are_unequal(alloc, &[("a", 1)], &[]));
    assert!(rt; are_unequal(alloc, &[("a", 1), ("b", 2)], &[("a", 1), ("b", 3)]));
}

// The copy is marked and equal, and no longer equal once it is given another number.
fn goes_its_own_way(alloc: Global, first: Context) -> bool {
    let copy = or_empty(alloc, first.clone());
    let text = "Some(Value { inner: String(true, \"<\") })";
    let is_copied = shows(alloc, &copy.get("t"), text) && first == copy;
    !are_equal(first, renumbered(copy)) && is_copied
}

// Another number is there.
fn renumbered(context: Context) -> Context {
    let mut context = context;
    drop(context.insert("n", 2));
    context
}

#[test]
fn a_copy_goes_its_own_way(rt: HostRuntime) {
    let alloc = rt.alloc();
    let first = or_empty(alloc, of_a_marked_text(alloc));
    assert!(rt; goes_its_own_way(alloc, first));
}

// A run of no step answers nothing, in words of Debug.
fn is_empty_run(alloc: Global, context: &mut Context) -> bool {
    let answers = run(context, Vec::new(alloc));
    let is_so = shows(alloc, &answers, "Ok([])");
    drop(answers);
    is_so
}

#[test]
fn an_empty_run_answers_nothing(rt: HostRuntime) {
    let alloc = rt.alloc();
    let mut context = by_hand(alloc);
    assert!(rt; is_empty_run(alloc, &mut context));
    assert!(rt; are_equal(context, by_hand(alloc)));
}

// The step that the line says.
fn step_of(alloc: Global, state: HashState, line: &str) -> Option<Step> {
    match read_line(alloc, state, line.as_bytes()).ok()? {
        Reading::Says(said) => said.into_step(alloc).ok(),
        other => no_step(other),
    }
}

fn no_step(reading: Reading) -> Option<Step> {
    drop(reading);
    None
}

// The step that the line says is answered so, in words of Debug.
pub(crate) fn answers(alloc: Global, context: &mut Context, line: &str, wanted: &str) -> bool {
    match step_of(alloc, context.hasher(), line) {
        Some(said) => is_answered(alloc, context, said, wanted),
        None => false,
    }
}

fn is_answered(alloc: Global, context: &mut Context, said: Step, wanted: &str) -> bool {
    let answer = step(context, said);
    let is_so = shows(alloc, &answer, wanted);
    drop(answer);
    is_so
}

const ANSWERS: [(&str, &str); 15] = [
    ("set a 7u64", "Ok(Done)"),
    ("get a -> b", "Ok(Done)"),
    ("get b", "Ok(Found(Some(Value { inner: U64(7) })))"),
    ("get x -> c", "Ok(Found(None))"),
    ("has c", "Ok(Truth(false))"),
    ("len c", "Ok(Size(None))"),
    ("set t \"é<\"", "Ok(Done)"),
    ("len t", "Ok(Size(Some(2)))"),
    ("kind t", "Ok(Kind(String))"),
    ("escape t", "Ok(Text(\"é&lt;\"))"),
    ("cmp a t", "Ok(Order(Some(Less)))"),
    ("try_cmp a t", "Ok(Order(None))"),
    ("set m {\"b\": 1, \"a\": 2}", "Ok(Done)"),
    ("walk m", "Ok(Walked([\"b\", \"a\"]))"),
    ("fields m", "Ok(Texts([\"a\", \"b\"]))"),
];

// A literal, the variant that holds what it says with what stands in it, and the kind.
const SAID: [(&str, &str, &str); 14] = [
    ("undefined", "Undefined", "Undefined"),
    ("none", "None", "None"),
    ("true", "Bool(true)", "Bool"),
    ("7u64", "U64(7)", "U64"),
    ("-7i64", "I64(-7)", "I64"),
    ("7u128", "U128(7)", "U128"),
    ("-7i128", "I128(-7)", "I128"),
    ("\"a\"", "String(false, \"a\")", "String"),
    ("s\"a\"", "String(true, \"a\")", "String"),
    ("x\"61ff\"", "Bytes([97, 255])", "Bytes"),
    ("[]", "Array([])", "Array"),
    ("[none]", "Array([Value { inner: None }])", "Array"),
    ("{}", "Map({})", "Map"),
    (
        "{\"b\": none, 1u64: none, -1: none, true: none}",
        "Map({String(\"b\"): Value { inner: None }, U64(1): Value { inner: None }, \
        I64(-1): Value { inner: None }, Bool(true): Value { inner: None }})",
        "Map",
    ),
];

// What the literal says, set as `a`, and its kind are shown so.
fn shows_held(alloc: Global, context: &mut Context, said: &str, held: &str, kind: &str) -> bool {
    let set = text_or_none(alloc, format!(in alloc; "set a {said}"));
    let is_set = answers(alloc, context, set.as_str(), "Ok(Done)");
    drop(set);
    let found = format!(in alloc; "Ok(Found(Some(Value {{ inner: {held} }})))");
    let is_found = answers_text(alloc, context, "get a", text_or_none(alloc, found));
    let told = format!(in alloc; "Ok(Kind({kind}))");
    is_set && is_found && answers_text(alloc, context, "kind a", text_or_none(alloc, told))
}

// The text that was made, or none.
fn text_or_none(alloc: Global, made: Result<String, AllocError>) -> String {
    made.unwrap_or(String::new(alloc))
}

// The step that the line says is answered by that text.
fn answers_text(alloc: Global, context: &mut Context, line: &str, wanted: String) -> bool {
    let is_so = answers(alloc, context, line, wanted.as_str());
    drop(wanted);
    is_so
}

#[test]
fn values_and_kinds_show_what_they_are(rt: HostRuntime) {
    let alloc = rt.alloc();
    let mut context = Context::new(alloc);
    for (said, held, kind) in SAID {
        assert!(rt; shows_held(alloc, &mut context, said, held, kind), "{said}");
    }
    drop(context);
}

#[test]
fn answers_show_what_they_hold(rt: HostRuntime) {
    let alloc = rt.alloc();
    let mut context = Context::new(alloc);
    for (line, wanted) in ANSWERS {
        assert!(rt; answers(alloc, &mut context, line, wanted), "{line}");
    }
    drop(context);
}

// What the context lends for the step that the line says, in words of Debug.
fn lends(alloc: Global, context: &Context, line: &str, wanted: &str) -> bool {
    match read_line(alloc, context.hasher(), line.as_bytes()) {
        Ok(Reading::Says(said)) => is_lent(alloc, context, said, wanted),
        _ => false,
    }
}

fn is_lent(alloc: Global, context: &Context, said: Command<'_>, wanted: &str) -> bool {
    let is_so = shows(alloc, &lend(context, &said), wanted);
    drop(said);
    is_so
}

const LENT: [(&str, &str); 9] = [
    ("get con", "Some(Found(Some(Value { inner: I64(69) })))"),
    ("get x", "Some(Found(None))"),
    ("print con", "Some(Print(Value { inner: I64(69) }))"),
    ("get con -> c", "None"),
    ("has con", "Some(Tell(Truth(true)))"),
    ("cmp x con", "Some(Tell(Order(Some(Greater))))"),
    ("len con", "Some(Tell(Size(None)))"),
    ("add con con", "Some(Tell(Number(138)))"),
    ("escape con", "None"),
];

#[test]
fn what_is_not_kept_is_lent(rt: HostRuntime) {
    let alloc = rt.alloc();
    let context = by_hand(alloc);
    for (line, wanted) in LENT {
        assert!(rt; lends(alloc, &context, line, wanted), "{line}");
    }
    drop(context);
}
