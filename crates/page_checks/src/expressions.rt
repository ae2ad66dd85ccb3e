//! What expressions are read as, and what they stand for.
use crate::held::{Seen, hold};
use crate::shop::{refused, shows};
use std::alloc::Global;

#[test]
fn conditions_are_read(rt: HostRuntime) {
    let alloc = rt.alloc();
    hold!(
        &rt,
        [
            shows(alloc, "{% if not zero %}a{% endif %}", "a"),
            shows(alloc, "{% if not not zero %}a{% else %}b{% endif %}", "b"),
            shows(alloc, "{% if count and words %}a{% endif %}", "a"),
            shows(alloc, "{% if zero or empty %}a{% else %}b{% endif %}", "b"),
            shows(alloc, "{% if zero and zero or count %}a{% endif %}", "a"),
            shows(
                alloc,
                "{% if zero and (zero or count) %}a{% else %}b{% endif %}",
                "b"
            ),
            shows(alloc, "{% if not zero == count %}a{% endif %}", "a"),
            shows(
                alloc,
                "{% if count == 3 and a.b.0 == 'x' %}a{% endif %}",
                "a"
            ),
            shows(
                alloc,
                "{% if \"Tea & <Cakes>\" == title %}a{% endif %}",
                "a"
            ),
            shows(alloc, "{% if count != 3 %}a{% else %}b{% endif %}", "b"),
            shows(alloc, "{% if 'x' in words %}a{% endif %}", "a"),
            shows(
                alloc,
                "{% if 'z' not in words and 'Tea' in title %}a{% endif %}",
                "a"
            ),
            shows(
                alloc,
                "{% if absent is defined %}a{% else %}b{% endif %}",
                "b"
            ),
            shows(
                alloc,
                "{% if missing is not defined and nothing is defined %}a{% endif %}",
                "a"
            ),
            shows(
                alloc,
                "{% if absent == 1 or absent < 1 %}a{% else %}b{% endif %}",
                "b"
            ),
            shows(
                alloc,
                "{% if nothing == none and true != false %}a{% endif %}",
                "a"
            ),
            shows(alloc, "{% if zero %}{% elif count>2 %}a{% endif %}", "a"),
            refused(
                alloc,
                "{% if 1 in count %}{% endif %}",
                "`in` cannot be used on"
            ),
            refused(
                alloc,
                "{% if zero or 1 in absent %}{% endif %}",
                "`in` cannot be used on"
            ),
            shows(alloc, "{% if count or 1 in absent %}a{% endif %}", "a"),
            shows(
                alloc,
                "{% if zero and 1 in absent %}a{% else %}b{% endif %}",
                "b"
            ),
        ],
    );
}

#[test]
fn values_are_ordered_inside_a_rank(rt: HostRuntime) {
    let alloc = rt.alloc();
    hold!(
        &rt,
        [
            shows(
                alloc,
                "{{ 1 < 2 }}{{ 2 <= 2 }}{{ 2 > 2 }}{{ 2 >= 3 }}",
                "truetruefalsefalse"
            ),
            shows(alloc, "{{ 'a' < 'b' }} {{ words < words }}", "true false"),
            shows(
                alloc,
                "{{ 1 < 'a' }} {{ 1 > 'a' }} {{ 1 == 'a' }}",
                "false false false"
            ),
            shows(
                alloc,
                "{{ none < nothing }} {{ none <= nothing }}",
                "false true"
            ),
            shows(alloc, "{{ true == 1 }}", "false"),
        ],
    );
}

#[test]
fn numbers_are_computed(rt: HostRuntime) {
    let alloc = rt.alloc();
    hold!(
        &rt,
        [
            shows(alloc, "{{ 1 + 2 * 3 - 4 }}", "3"),
            shows(alloc, "{{ (1 + 2) * 3 }}", "9"),
            shows(alloc, "{{ 10 - 3 - 2 }}", "5"),
            shows(
                alloc,
                "{{ 7 // 2 }} {{ 7 % 2 }} {{ -7 // 2 }} {{ -7 % 2 }}",
                "3 1 -4 1"
            ),
            shows(
                alloc,
                "{{ 2 ** 3 ** 2 }} {{ -2 ** 2 }} {{ 2 ** -0 }}",
                "512 -4 1"
            ),
            shows(alloc, "{{ count*count+1 }}", "10"),
            shows(alloc, "{{ - - count }}", "3"),
            shows(
                alloc,
                "{{ 18446744073709551615 + 1 }}",
                "18446744073709551616"
            ),
            refused(alloc, "{{ count // zero }}", "Cannot divide by 0"),
            refused(
                alloc,
                "{{ title + 1 }}",
                "Only numbers can be used in arithmetic"
            ),
            refused(alloc, "{{ -title }}", "Only numbers can be negated"),
        ],
    );
}

#[test]
fn texts_stand_between_quotes(rt: HostRuntime) {
    let alloc = rt.alloc();
    hold!(
        &rt,
        [
            shows(alloc, "{{ '<b>' }}{{ '<b>' | safe }}", "&lt;b&gt;<b>"),
            shows(
                alloc,
                "{{ \"it's\" }}{{ 'say \"a|b\"' | safe }}",
                "it&#39;ssay \"a|b\""
            ),
            shows(alloc, "{{ 'a|b' }}{{ '' }}", "a|b"),
            shows(
                alloc,
                "{{ true }} {{ false }} [{{ none }}]",
                "true false []"
            ),
            refused(alloc, "{{ 'a\\n' }}", "This is not read"),
            refused(alloc, "{{ 'a }}", "This is not read"),
        ],
    );
}

#[test]
fn what_is_no_expression_is_refused(rt: HostRuntime) {
    let alloc = rt.alloc();
    let mut long = String::new(alloc);
    for _ in 0..64 {
        let _ = long.push_str("not ");
    }
    hold!(
        &rt,
        [
            refused(alloc, "{{ 1 < 2 < 3 }}", "This is not read"),
            refused(alloc, "{{ 1 + }}", "This is not read"),
            refused(alloc, "{{ (1 }}", "This is not read"),
            refused(alloc, "{{ 1) }}", "This is not read"),
            refused(alloc, "{{ 1 2 }}", "This is not read"),
            refused(alloc, "{{ 1.5 }}", "This is not read"),
            refused(alloc, "{{ a = 1 }}", "This is not read"),
            refused(alloc, "{{ 18446744073709551616 }}", "This is not read"),
            refused(alloc, "{% if a is %}{% endif %}", "This is not read"),
            refused(alloc, "{% if %}{% endif %}", "This is not read"),
            refused(alloc, "{% for w in %}{% endfor %}", "This is not read"),
            nests(alloc, long.as_str()),
        ],
    );
}

// Twice 63 of these words and a value have a page, and twice 64 have none.
fn nests(alloc: Global, long: &str) -> Seen {
    let short = long.get(4..).unwrap_or("");
    let read = format!(in alloc; "{{{{ {long}{short}count }}}}").unwrap_or(String::new(alloc));
    let unread = format!(in alloc; "{{{{ {long}{long}count }}}}").unwrap_or(String::new(alloc));
    shows(alloc, read.as_str(), "false")?;
    refused(alloc, unread.as_str(), "More than 128 words and signs")
}
