//! Filters that are not read, and what filters refuse in pages.
use crate::held::{Seen, hold};
use crate::shop::{refused, shows};
use std::alloc::Global;

#[test]
fn what_is_no_filter_is_refused(rt: HostRuntime) {
    let alloc = rt.alloc();
    hold!(
        &rt,
        [
            refused(
                alloc,
                "{{ a | none_such }}",
                "There is no such filter\n --> :1:1\n"
            ),
            refused(
                alloc,
                "x\n {{ a | length | Upper() }}",
                "There is no such filter\n --> :2:2\n"
            ),
            refused(
                alloc,
                "{% if zero and a | title %}{% endif %}",
                "There is no such filter\n --> :1:1\n"
            ),
            refused(
                alloc,
                "{% for w in words | sorted %}{% endfor %}",
                "There is no such filter"
            ),
            refused(
                alloc,
                "{{ title | safe | upper }}",
                "There is no such filter"
            ),
            refused(
                alloc,
                "{{ title | escape | safe }}",
                "There is no such filter"
            ),
            refused(alloc, "{{ (title | safe) }}", "There is no such filter"),
            refused(alloc, "{{ title | safe() }}", "There is no such filter"),
            refused(
                alloc,
                "{% if title | safe %}{% endif %}",
                "There is no such filter"
            ),
            refused(alloc, "{{ title | upper.a }}", "There is no such filter"),
            refused(alloc, "{{ title | }}", "This is not read\n --> :1:1\n"),
            refused(alloc, "{{ | upper }}", "This is not read"),
            refused(alloc, "{{ title || upper }}", "This is not read"),
            refused(alloc, "{{ title | 'upper' }}", "This is not read"),
            refused(alloc, "{{ title | (upper) }}", "This is not read"),
            refused(alloc, "{{ title | in }}", "This is not read"),
            refused(alloc, "{{ (words | sort).0 }}", "This is not read"),
        ],
    );
}

#[test]
fn what_is_no_argument_is_refused(rt: HostRuntime) {
    let alloc = rt.alloc();
    hold!(
        &rt,
        [
            given(alloc, "','"),
            given(alloc, "sep"),
            given(alloc, "sep="),
            given(alloc, "=','"),
            given(alloc, "sep=',',"),
            given(alloc, ","),
            given(alloc, "sep=',' n=1"),
            given(alloc, "sep==','"),
            given(alloc, "sep=(',')"),
            given(alloc, "n=1 + 1"),
            given(alloc, "n=--1"),
            given(alloc, "n=-count"),
            given(alloc, "n=-'1'"),
            given(alloc, "n=-none"),
            given(alloc, "sep=title | upper"),
            given(alloc, "n=1.5"),
            given(alloc, "n=18446744073709551616"),
            given(alloc, "sep='\\n'"),
            given(alloc, "loop=1"),
            given(alloc, "in=1"),
            given(alloc, "1n=1"),
            given(alloc, "a.b=1"),
            given(alloc, "n=loop"),
            given(alloc, "sep=',')"),
            refused(alloc, "{{ words | join(sep=',' }}", "This is not read"),
            refused(alloc, "{{ words | join( }}", "This is not read"),
            refused(alloc, "{{ words | join) }}", "This is not read"),
        ],
    );
}

// A filter is not read with these arguments, also where it takes none of them.
fn given(alloc: Global, arguments: &str) -> Seen {
    let text = format!(in alloc; "{{{{ words | join({arguments}) }}}}").unwrap_or(String::new(
        alloc,
    ));
    refused(alloc, text.as_str(), "This is not read\n --> :1:1\n")
}

#[test]
fn filters_refuse_in_pages(rt: HostRuntime) {
    let alloc = rt.alloc();
    hold!(
        &rt,
        [
            shows(
                alloc,
                "{{ absent | length }}",
                "refused: Value of type undefined has no length"
            ),
            shows(
                alloc,
                "x{{ absent | upper }}",
                "refused: Invalid type for the value, expected `&str` but got `undefined`"
            ),
            shows(
                alloc,
                "{{ title | first }}",
                "refused: Invalid type for the value, expected `&[Value]` but got `string`"
            ),
            shows(
                alloc,
                "{% for w in count | sort %}{% endfor %}",
                "refused: Invalid type for the value, expected `&[Value]` but got `u64`"
            ),
            shows(
                alloc,
                "{{ words | get(key='x') }}",
                "refused: Invalid type for the value, expected `Map` but got `array`"
            ),
            shows(
                alloc,
                "{{ a | get(key='c') }}",
                "refused: The map has no key `c`"
            ),
            shows(
                alloc,
                "{{ a | get }}",
                "refused: Missing keyword argument `key`"
            ),
            shows(
                alloc,
                "{{ a | get(key=absent) }}",
                "refused: Invalid type for the value, expected `&str` but got `undefined`"
            ),
            shows(
                alloc,
                "{{ words | nth(m=1) }}",
                "refused: Missing keyword argument `n`"
            ),
            shows(
                alloc,
                "{{ words | nth(n=-1) }}",
                "refused: Value `-1` is out of range for `usize`"
            ),
            shows(
                alloc,
                "{{ words | slice(start=none) }}",
                "refused: Invalid type for the value, expected `i128` but got `none`"
            ),
            shows(
                alloc,
                "{{ words | join(sep=1) }}",
                "refused: Invalid type for the value, expected `&str` but got `u64`"
            ),
            shows(
                alloc,
                "{{ title | int }}",
                "refused: `Tea & <Cakes>` is no integer"
            ),
            shows(
                alloc,
                "{{ nothing | abs }}",
                "refused: Only numbers can be used in arithmetic. This is a `none`"
            ),
            shows(
                alloc,
                "{% if count or absent | length %}a{% endif %}{{ zero and absent | length }}",
                "afalse"
            ),
            shows(
                alloc,
                "{{ empty | first }}",
                "refused: Nothing is found at `empty | first`"
            ),
            shows(
                alloc,
                "{{ empty|last|safe }}",
                "refused: Nothing is found at `empty|last`"
            ),
            shows(
                alloc,
                "{% for w in words | first %}{% endfor %}",
                "refused: What is found at `words | first` is no array"
            ),
            shows(
                alloc,
                "{% for k, v in words | sort %}{% endfor %}",
                "refused: What is found at `words | sort` is no map"
            ),
        ],
    );
}

#[test]
fn filters_are_counted(rt: HostRuntime) {
    let alloc = rt.alloc();
    hold!(&rt, [piped(alloc, 63, "X"), piped(alloc, 64, "")]);
}

// So many filters behind one word, which is two words and signs for each; they are refused where
// nothing is wanted.
fn piped(alloc: Global, times: usize, wanted: &str) -> Seen {
    let mut text = String::new(alloc);
    let _ = text.push_str("{{ words.0 ");
    for _ in 0..times {
        let _ = text.push_str("| upper ");
    }
    let _ = text.push_str("| escape }}");
    if wanted.is_empty() {
        refused(alloc, text.as_str(), "More than 128 words and signs")
    } else {
        shows(alloc, text.as_str(), wanted)
    }
}
