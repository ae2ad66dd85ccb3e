//! Filters in expressions: how tightly they hold together, and what they make there.
use crate::held::hold;
use crate::shop::{refused, shows};

#[test]
fn filters_stand_behind_values(rt: HostRuntime) {
    let alloc = rt.alloc();
    hold!(
        &rt,
        [
            shows(alloc, "{{ title | upper }}", "TEA &amp; &lt;CAKES&gt;"),
            shows(alloc, "{{title|lower|trim}}", "tea &amp; &lt;cakes&gt;"),
            shows(alloc, "{{ ' <i> ' | trim }}", "&lt;i&gt;"),
            shows(
                alloc,
                "{{ words | length }}{{ a|length }}{{ 'h\u{e9}' | length }}",
                "212"
            ),
            shows(
                alloc,
                "{{ words | first }}{{ words | last }}{{ a.b | last() }}",
                "xyy"
            ),
            shows(
                alloc,
                "{{ words | reverse | first }}{{ 'ab' | reverse }}",
                "yba"
            ),
            shows(alloc, "{{ words | reverse | sort | unique | join }}", "xy"),
            shows(alloc, "{{ '42' | int + 1 }}", "43"),
            shows(
                alloc,
                "{{ prices | length }}{{ no_prices | length( ) }}",
                "30"
            ),
            shows(alloc, "{% if title | length > 12 %}a{% endif %}", "a"),
            shows(
                alloc,
                "{% if 'TEA' in title | upper and words | first == 'x' %}a{% endif %}",
                "a"
            ),
            shows(
                alloc,
                "{% if zero %}{% elif empty | length == 0 %}a{% endif %}",
                "a"
            ),
            shows(
                alloc,
                "{% if empty | first is not defined %}a{% endif %}",
                "a"
            ),
            shows(
                alloc,
                "{% for w in words | reverse %}{{ loop.index }}{{ w | upper }}{% endfor %}",
                "1Y2X"
            ),
            shows(
                alloc,
                "{% for k, v in a %}{{ k | upper }}{{ v | join }}{% endfor %}",
                "Bxy"
            ),
        ],
    );
}

#[test]
fn filters_hold_together(rt: HostRuntime) {
    let alloc = rt.alloc();
    hold!(
        &rt,
        [
            shows(
                alloc,
                "{{ -5 | abs }} {{ -2 ** 2 | abs }} {{ 2 ** 3 | abs }}",
                "5 4 8"
            ),
            shows(alloc, "{{ 1 + -2 | abs }} {{ 1 - -2 | abs * 3 }}", "3 -5"),
            shows(
                alloc,
                "{{ 10 // -3 | abs }} {{ 10 % words | length }}",
                "3 0"
            ),
            shows(alloc, "{{ (1 - 4) | abs }}", "3"),
            shows(alloc, "{{ - (words | length) }}", "-2"),
            shows(alloc, "{{ not words | length }}", "false"),
            shows(alloc, "{{ 'a' == 'A' | lower }}", "true"),
            shows(
                alloc,
                "{{ - words | length }}",
                "refused: Only numbers can be negated. This is a `array`"
            ),
            shows(
                alloc,
                "{{ 2 ** words | length }}",
                "refused: Only numbers can be used in arithmetic. This is a `array`"
            ),
            refused(alloc, "{{ words | length ** 2 }}", "This is not read"),
            refused(alloc, "{{ title is defined | upper }}", "This is not read"),
        ],
    );
}

#[test]
fn arguments_have_names(rt: HostRuntime) {
    let alloc = rt.alloc();
    hold!(
        &rt,
        [
            shows(alloc, "{{ words | join(sep=', ') }}", "x, y"),
            shows(alloc, "{{ words|join\n( sep = \"|\" ) }}", "x|y"),
            shows(
                alloc,
                "{{ words | join(sep=title) }}",
                "xTea &amp; &lt;Cakes&gt;y"
            ),
            shows(alloc, "{{ words | join(sep=a.b.0) }}", "xxy"),
            shows(
                alloc,
                "{{ words | nth(n=1) }}{{ words | nth(n=zero) }}",
                "yx"
            ),
            shows(
                alloc,
                "{% for w in words %}{{ words | nth(n=loop.index0) }}{% endfor %}",
                "xy"
            ),
            shows(alloc, "{{ 'abcd' | slice(start=1, end=-1) }}", "bc"),
            shows(
                alloc,
                "{{ 'abcd' | slice(end=2)|upper }}{{ 'abcd'|slice(start= - 1) }}",
                "ABd"
            ),
            shows(alloc, "{{ a | get(key='b') | first }}", "x"),
            shows(alloc, "{{ a | get(key='c', default=true) }}", "true"),
            shows(alloc, "{{ a | get(default=false, key='c') }}", "false"),
            shows(alloc, "[{{ a | get(key='c', default=none) }}]", "[]"),
            shows(
                alloc,
                "{{ a | get(key='c', default=-18446744073709551615) }}",
                "-18446744073709551615"
            ),
            shows(alloc, "{{ a | get(key='c', default='<') }}", "&lt;"),
            shows(
                alloc,
                "{% for w in words | slice(start=0, end=1) %}{{ w }}{% endfor %}",
                "x"
            ),
            shows(
                alloc,
                "{% for w in a | get(key=',', default=words) %}{{ w }}{% endfor %}",
                "xy"
            ),
            shows(
                alloc,
                "{% for k, v in no_prices | get(key=',', default=a) %}{{ k }}{{ v.1 }}{% endfor %}",
                "by"
            ),
            refused(
                alloc,
                "{% for w in ',' %}{% endfor %}",
                "What is found at `','` is no array"
            ),
            shows(alloc, "{{ 'abcd' | slice(start=1, start=2) }}", "cd"),
            shows(
                alloc,
                "{{ title | lower(sep=1, none_such='x') | length(n=none) }}",
                "13"
            ),
        ],
    );
}

#[test]
fn filtered_texts_are_escaped(rt: HostRuntime) {
    let alloc = rt.alloc();
    hold!(
        &rt,
        [
            shows(alloc, "{{ '<b>' | upper }}", "&lt;B&gt;"),
            shows(
                alloc,
                "{{ markup }}{{ markup | upper }}{{ markup | trim }}",
                "<b>&lt;B&gt;&lt;b&gt;"
            ),
            shows(
                alloc,
                "{{ markup | reverse }}{{ words | join(sep=markup) }}",
                "&gt;b&lt;x&lt;b&gt;y"
            ),
            shows(
                alloc,
                "{{ markup | slice(end=2) }}{{ a | get(key='', default=markup) }}",
                "<b<b>"
            ),
            shows(
                alloc,
                "{{ '<b>' | upper | safe }}{{ '<b>' | upper | escape }}",
                "<B>&lt;B&gt;"
            ),
            shows(alloc, "{{ words | join(sep='<') | safe }}", "x<y"),
            shows(alloc, "{{ 1 + -2 | abs | safe }}", "3"),
            shows(
                alloc,
                "{{ 'a | safe' | upper }}{{ words | join(sep=' | safe') }}",
                "A | SAFEx | safey"
            ),
        ],
    );
}
