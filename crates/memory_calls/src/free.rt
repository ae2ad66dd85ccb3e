//! Calls that take no memory, and some that take just so much. Behind the line `made` no operand is
//! made, so that each request there is one of the call whose line follows it.
use crate::answers::{tell, tell_debug, widened};
use crate::arguments::taken;
use crate::contexts::tell_lent;
use crate::made::{Made, filled, span};
use std::alloc::Global;
use std::io::Write;
use std::rc::RcStr;
use std::{io, mem};
use tera_arguments::{Kwargs, StringInput};
use tera_context::Context;
use tera_report::sink::{Growing, Room};
use tera_report::{ReportError, TeraResult, escape_html, escape_into_room};
use tera_values::number::{add, floor_div, mul, negate, pow, rem, sub};
use tera_values::{ConversionRefused, IntType, Key, Map, Number, Value};

// Takes all that it is given, and keeps nothing.
#[derive(Drop)]
struct Lost;

impl Write for Lost {
    fn write(&mut self, buf: &[u8]) -> io::Result<usize> {
        Ok(buf.len())
    }

    fn flush(&mut self) -> io::Result<()> {
        Ok(())
    }
}

/// Tells the calls on operands of so many parts.
pub fn tell_free(rt: &(impl Print + AllocGlobal), count: usize) -> TeraResult<()> {
    let mut made = Made::bare(rt.alloc(), count);
    let mut other = Made::bare(rt.alloc(), count);
    let told = tell_filled(rt, &mut made, &mut other);
    drop(made);
    drop(other);
    told
}

fn tell_filled(
    rt: &(impl Print + AllocGlobal),
    made: &mut Made,
    other: &mut Made,
) -> TeraResult<()> {
    made.fill(rt.alloc())?;
    other.fill(rt.alloc())?;
    tell_texts(rt, made)?;
    tell_report(rt, sample(rt.alloc(), made)?);
    tell_keys(rt)?;
    tell_context(
        rt,
        filled(rt.alloc(), Context::new(rt.alloc()), made.count)?,
    );
    tell_made(rt);
    tell_values(rt, made, other);
    tell_taken(rt, made);
    tell_given_away(rt, other);
    Ok(())
}

// From here on no operand is made, up to the line `making`.
fn tell_made(rt: &impl Print) {
    let _ = println!(rt; "made");
}

fn tell_making(rt: &impl Print) {
    let _ = println!(rt; "making");
}

// ---- texts and reports

fn tell_texts(rt: &(impl Print + AllocGlobal), made: &Made) -> TeraResult<()> {
    let room = Room::new(rt.alloc(), 4096)?;
    tell_made(rt);
    tell_rooms(rt, made, room);
    tell_written(rt, made);
    tell_making(rt);
    Ok(())
}

fn tell_rooms(rt: &impl Print, made: &Made, room: Room) {
    let (mut room, text) = (room, made.text.as_str());
    tell_debug(rt, "escape_into_room", &escape_into_room(text, &mut room));
    tell_debug(rt, "Value::print_to", &made.map.print_to(&mut room));
    tell_debug(
        rt,
        "Value::print_into_room",
        &made.list.print_into_room(&mut room),
    );
    tell_debug(rt, "Room::left", &room.left());
    drop(room);
}

fn tell_written(rt: &impl Print, made: &Made) {
    let text = made.text.as_str();
    tell_done(rt, "escape_html", escape_html(text, &mut Lost));
    tell_done(rt, "Value::format", made.map.format(&mut Lost));
    tell_done(
        rt,
        "Value::format_inside",
        made.list.format_inside(&mut Lost),
    );
    let _ = println!(rt; "Value: {}", made.map);
}

fn tell_done(rt: &impl Print, name: &str, answer: io::Result<()>) {
    tell_debug(rt, name, &answer.is_ok());
    drop(answer);
}

fn sample(alloc: Global, made: &Made) -> TeraResult<ReportError> {
    let text = made.text.as_str();
    let message = String::from_str(alloc, text)?;
    let report = ReportError::new(alloc, message, text, text, &span())?;
    filled(alloc, report, made.count)
}

// A report of one request for memory, and one of none.
fn tell_report(rt: &(impl Print + AllocGlobal), report: ReportError) {
    tell_made(rt);
    tell(
        rt,
        "ReportError::generate_report",
        report.generate_report(rt.alloc()),
    );
    tell_debug(rt, "ReportError::message", &report.message());
    tell_debug(rt, "ReportError::filename", &report.filename());
    tell_debug(rt, "ReportError::span", report.span());
    tell_making(rt);
    drop(report);
}

// ---- keys

// A text of more than 16 bytes, which stands in no key, and one that does.
const LONG: &str = "a text of more than 16 bytes";

const SHORT: &str = "at most 16 bytes";

fn tell_keys(rt: &(impl Print + AllocGlobal)) -> TeraResult<()> {
    let alloc = rt.alloc();
    tell_long_keys(rt, Key::String(RcStr::from_str(alloc, LONG)?));
    let short = Value::normal_string(alloc, SHORT)?;
    let owned = String::from_str(alloc, SHORT)?;
    tell_made(rt);
    tell_short_keys(rt, &short, owned);
    drop(short);
    Ok(())
}

// What a copy shares takes none.
fn tell_long_keys(rt: &(impl Print + AllocGlobal), key: Key<'static>) {
    let alloc = rt.alloc();
    let lent = Key::Str(LONG);
    tell_made(rt);
    tell(rt, "Key::clone", key.clone(alloc));
    tell_debug(rt, "Key::eq", &(key == lent));
    tell_debug(rt, "Key::cmp", &key.cmp(&lent));
    tell_debug(rt, "Key::as_str", &key.as_str());
    tell_done(rt, "Key::format", key.format(&mut Lost));
    tell(rt, "Key::of_text", widened(Key::of_text(alloc, LONG)));
    tell_making(rt);
    drop(key);
}

// A text of at most 16 bytes stands in place.
fn tell_short_keys(rt: &(impl Print + AllocGlobal), short: &Value, owned: String) {
    let alloc = rt.alloc();
    tell(
        rt,
        "Key::of_text in place",
        widened(Key::of_text(alloc, SHORT)),
    );
    tell(
        rt,
        "Key::of_string in place",
        widened(Key::of_string(owned)),
    );
    tell(rt, "Value::as_key in place", short.as_key(alloc));
    tell_making(rt);
}

// ---- contexts

fn tell_context(rt: &(impl Print + AllocGlobal), context: Context) {
    let mut context = context;
    tell_made(rt);
    tell_debug(rt, "Context::contains_key", &context.contains_key("k1001"));
    tell_debug(rt, "Context::get", &context.get("k1001"));
    tell_lent(rt, &context, "k1001");
    tell_debug(rt, "Context::eq", &(context == context));
    tell_debug(rt, "Context::remove", &context.remove("k1001"));
    tell_making(rt);
    drop(context);
}

// ---- values

fn tell_values(rt: &(impl Print + AllocGlobal), made: &Made, other: &Made) {
    tell_value(rt, &made.plain, &other.plain);
    tell_value(rt, &made.raw, &other.raw);
    tell_value(rt, &made.list, &other.list);
    tell_value(rt, &made.map, &other.map);
    tell_value(rt, &made.none, &other.none);
    tell_value(rt, &made.wide, &other.zero);
    tell_found(rt, made);
    tell_computed(rt, &made.below, &made.zero);
    tell_converted(rt);
}

fn tell_value(rt: &impl Print, value: &Value, other: &Value) {
    let _ = println!(rt; "of {}", value.name());
    tell_weighed(rt, value, other);
    tell_kinds(rt, value);
    tell_read(rt, value);
    tell_numbers(rt, value);
}

fn tell_weighed(rt: &impl Print, value: &Value, other: &Value) {
    tell_debug(rt, "Value::eq", &(*value == *other));
    tell_debug(rt, "Value::cmp", &value.cmp(other));
    tell_debug(rt, "Value::partial_cmp", &value.partial_cmp(other));
    tell_debug(rt, "Value::try_compare", &value.try_compare(other));
}

fn tell_kinds(rt: &impl Print, value: &Value) {
    tell_debug(rt, "Value::kind", &value.kind());
    tell_debug(rt, "Value::is_undefined", &value.is_undefined());
    tell_debug(rt, "Value::is_none", &value.is_none());
    tell_debug(rt, "Value::is_bool", &value.is_bool());
    tell_debug(rt, "Value::is_string", &value.is_string());
    tell_debug(rt, "Value::is_i128", &value.is_i128());
    tell_debug(rt, "Value::is_u128", &value.is_u128());
    tell_debug(rt, "Value::is_i64", &value.is_i64());
    tell_debug(rt, "Value::is_u64", &value.is_u64());
    tell_debug(rt, "Value::is_array", &value.is_array());
    tell_debug(rt, "Value::is_map", &value.is_map());
    tell_debug(rt, "Value::is_bytes", &value.is_bytes());
}

fn tell_read(rt: &impl Print, value: &Value) {
    tell_debug(rt, "Value::as_bool", &value.as_bool());
    tell_debug(rt, "Value::as_str", &value.as_str());
    tell_debug(rt, "Value::as_array", &value.as_array());
    tell_debug(rt, "Value::as_bytes", &value.as_bytes());
    tell_debug(rt, "Value::as_map", &value.as_map());
    tell_debug(rt, "Value::is_safe", &value.is_safe());
    tell_debug(rt, "Value::is_truthy", &value.is_truthy());
    tell_debug(rt, "Value::len", &value.len());
    tell_debug(rt, "Value::can_be_iterated_on", &value.can_be_iterated_on());
}

fn tell_numbers(rt: &impl Print, value: &Value) {
    tell_debug(rt, "Value::is_number", &value.is_number());
    tell_debug(rt, "Value::as_i128", &value.as_i128());
    tell_debug(rt, "Value::as_u128", &value.as_u128());
    tell_debug(rt, "Value::as_i64", &value.as_i64());
    tell_debug(rt, "Value::as_u64", &value.as_u64());
    tell_debug(rt, "Value::as_number", &value.as_number());
}

fn tell_found(rt: &(impl Print + AllocGlobal), made: &Made) {
    let (alloc, map, text) = (rt.alloc(), &made.map, &made.plain);
    tell_debug(rt, "Value::get_attr", &map.get_attr("k1001"));
    tell_debug(rt, "Value::get_at", &map.get_at(text));
    tell_debug(rt, "Value::get_at", &made.list.get_at(&made.zero));
    tell_debug(rt, "Value::get_from_path", &made.list.get_from_path("1"));
    tell(rt, "Value::contains", map.contains(alloc, text));
    tell(rt, "Value::contains", map.contains(alloc, &made.zero));
    tell(rt, "Value::contains", text.contains(alloc, text));
    tell(rt, "Value::contains", made.list.contains(alloc, text));
    tell(rt, "Value::contains", made.texts.contains(alloc, text));
    tell_pairs(rt, map.as_map());
}

fn tell_pairs(rt: &impl Print, map: Option<&Map>) {
    if let Some(map) = map {
        tell_debug(rt, "Map::get", &map.get(&Key::Str("k1001")));
        tell_debug(rt, "Map::get_index", &map.get_index(1));
        tell_debug(rt, "Map::len", &map.len());
        tell_debug(rt, "Map::is_empty", &map.is_empty());
        tell_debug(rt, "Map::iter", &map.iter().next());
    }
}

fn tell_computed(rt: &(impl Print + AllocGlobal), one: &Value, zero: &Value) {
    let alloc = rt.alloc();
    tell(rt, "number::add", add(alloc, one, one));
    tell(rt, "number::sub", sub(alloc, one, zero));
    tell(rt, "number::mul", mul(alloc, one, one));
    tell(rt, "number::rem", rem(alloc, zero, one));
    tell(rt, "number::floor_div", floor_div(alloc, zero, one));
    tell(rt, "number::pow", pow(alloc, one, zero));
    tell(rt, "number::negate", negate(alloc, one));
    tell(rt, "Value::read_as", one.read_as(alloc, IntType::I8));
    tell(rt, "Value::read_as", zero.read_as(alloc, IntType::U128));
}

// What is converted, and what is refused.
fn tell_converted(rt: &impl Print) {
    tell_as::<bool>(rt, Value::from(true));
    tell_as::<u8>(rt, Value::from(7u64));
    tell_as::<u16>(rt, Value::from(7i64));
    tell_as::<u32>(rt, Value::from(7u128));
    tell_as::<u64>(rt, Value::from(7i128));
    tell_as::<u128>(rt, Value::from(7u64));
    tell_as::<usize>(rt, Value::from(7u64));
    tell_as::<i8>(rt, Value::from(-7i64));
    tell_as::<i16>(rt, Value::from(-7i128));
    tell_as::<i32>(rt, Value::none());
    tell_as::<i64>(rt, Value::from(u128::MAX));
    tell_as::<i128>(rt, Value::from(u128::MAX));
    tell_as::<isize>(rt, Value::from(7u64));
}

fn tell_as<T>(rt: &impl Print, value: Value)
where
    T: TryFrom<Value, Error = ConversionRefused> + std::fmt::Debug + Drop,
{
    let answer = T::try_from(value);
    tell_debug(rt, "Value::try_from", &answer);
    drop(answer);
}

// ---- arguments

fn tell_taken(rt: &(impl Print + AllocGlobal), made: &Made) {
    let (alloc, text) = (rt.alloc(), &made.plain);
    tell(
        rt,
        "bool::from_value",
        taken::<Value, bool>(alloc, &Value::from(true)),
    );
    tell(rt, "&str::from_value", taken::<Value, &str>(alloc, text));
    tell(
        rt,
        "&Value::from_value",
        taken::<Value, &Value>(alloc, text),
    );
    tell(
        rt,
        "&Map::from_value",
        taken::<Value, &Map>(alloc, &made.map),
    );
    tell(
        rt,
        "&[Value]::from_value",
        taken::<Value, &[Value]>(alloc, &made.list),
    );
    tell(
        rt,
        "Number::from_value",
        taken::<Value, Number>(alloc, &made.below),
    );
    tell(rt, "u8::from_value", taken::<Value, u8>(alloc, &made.zero));
    tell(
        rt,
        "i128::from_value",
        taken::<Value, i128>(alloc, &made.below),
    );
    tell_input(rt, taken::<Value, StringInput<'_>>(alloc, text));
}

fn tell_input(rt: &impl Print, taken: TeraResult<StringInput<'_>>) {
    match taken {
        Ok(input) => tell_debug(rt, "StringInput::as_str", &input.as_str()),
        Err(refused) => drop(refused),
    }
}

// ---- what is given away

fn tell_given_away(rt: &(impl Print + AllocGlobal), made: &mut Made) {
    let text = mem::replace(&mut made.plain, Value::none());
    tell(rt, "Value::mark_safe", Ok(text.mark_safe()));
    let list = mem::replace(&mut made.list, Value::none());
    tell_debug(rt, "Value::into_vec", &list.into_vec());
    let map = mem::replace(&mut made.map, Value::none());
    tell_arguments(rt, map.into_map());
}

fn tell_arguments(rt: &(impl Print + AllocGlobal), map: Option<Map>) {
    if let Some(map) = map {
        tell_gets(rt, Kwargs::new(map));
    }
}

fn tell_gets(rt: &(impl Print + AllocGlobal), of: Kwargs) {
    let alloc = rt.alloc();
    tell(rt, "Kwargs::get", of.get::<u64>(alloc, "k1001"));
    tell(rt, "Kwargs::get", of.get::<&str>(alloc, "k1000"));
    tell(rt, "Kwargs::must_get", of.must_get::<u64>(alloc, "k1001"));
    tell_debug(rt, "Kwargs::iter", &of.iter().next());
    drop(of);
}
