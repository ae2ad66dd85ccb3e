//! What names stand for once a template sets them, and how far.
use crate::held::{Seen, hold, is_so, same};
use crate::shop::{refused, shows};
use std::alloc::Global;
use tera::TeraResult;

#[test]
fn names_are_set(rt: HostRuntime) {
    let alloc = rt.alloc();
    hold!(
        &rt,
        [
            shows(alloc, "{% set x = count + 1 %}{{ x }}", "4"),
            shows(alloc, "{%-set\nx=words.1-%} [{{ x }}]", "[y]"),
            shows(
                alloc,
                "{{ count }}{% set count = title %}{{ count }}",
                "3Tea &amp; &lt;Cakes&gt;"
            ),
            shows(
                alloc,
                "{% set x = markup %}{{ x }}{% set x = x | upper %}{{ x }}",
                "<b>&lt;B&gt;"
            ),
            shows(
                alloc,
                "{% set x = 1 %}{% set x = x + x %}{% set x = x + x %}{{ x }}",
                "4"
            ),
            shows(
                alloc,
                "{% set x = a %}{{ x.b.1 }}{% set b = x.b %}{{ b.0 }}",
                "yx"
            ),
            shows(
                alloc,
                "{% set x = absent %}{{ x is defined }}{{ count == x }}",
                "falsefalse"
            ),
            shows(alloc, "{% set x = count == 3 %}{{ x }}", "true"),
            refused(
                alloc,
                "{% set x = absent %}{{ x }}",
                "Nothing is found at `x`"
            ),
            refused(alloc, "{{ x }}{% set x = 1 %}", "Nothing is found at `x`"),
            refused(
                alloc,
                "a{% set x = 1 + title %}b",
                "Only numbers can be used in arithmetic"
            ),
        ],
    );
}

#[test]
fn names_end_with_their_loop(rt: HostRuntime) {
    let alloc = rt.alloc();
    hold!(
        &rt,
        [
            shows(
                alloc,
                "{% if count %}{% set x = 1 %}{% endif %}{{ x }}",
                "1"
            ),
            shows(
                alloc,
                "{% if zero %}{% else %}{% set x = 2 %}{% endif %}{{ x }}",
                "2"
            ),
            shows(
                alloc,
                "{% if zero %}{% set count = 2 %}{% endif %}{{ count }}",
                "3"
            ),
            shows(
                alloc,
                "{% for w in words %}{{ count }}{% set count = w %}{{ count }} {% endfor %}\
                {{ count }}",
                "3x 3y 3",
            ),
            shows(
                alloc,
                "{% for w in words %}{% if loop.first %}{% set count = w %}{% endif %}{{ count }}\
                {% for v in words %}{{ count }}{% set count = v %}{% endfor %}{% endfor %}",
                "xxx333",
            ),
            shows(
                alloc,
                "{% for w in words %}{% set w = count %}{{ w }}{% endfor %}",
                "33"
            ),
            shows(
                alloc,
                "{% for k, v in prices %}{% set k = v %}{% set v = 0 %}{{ k }}{{ v }}{% endfor %}",
                "20&amp;00",
            ),
            shows(
                alloc,
                "{% set count = 9 %}{% for w in empty %}{% else %}{{ count }}{% set count = 8 %}\
                {{ count }}{% endfor %}{{ count }}",
                "989",
            ),
            shows(
                alloc,
                "{% set xs = words %}{% for xs in xs %}{{ xs }}{% endfor %}{{ xs | length }}",
                "xy2",
            ),
            refused(
                alloc,
                "{% for w in words %}{% set x = w %}{% endfor %}{{ x }}",
                "Nothing is found at `x`"
            ),
            refused(alloc, "{% set x = %}", "This is not read"),
            refused(alloc, "{% set x %}", "This is not read"),
            refused(alloc, "{% set = 1 %}", "This is not read"),
            refused(alloc, "{% set x == 1 %}", "This is not read"),
            refused(alloc, "{% set x, y = words %}", "This is not read"),
            refused(alloc, "{% set a.b = 1 %}", "This is not read"),
            refused(alloc, "{% set 1x = 1 %}", "This is not read"),
            refused(alloc, "{% set loop = 1 %}", "This is not read"),
            refused(alloc, "{% set loop.index = 1 %}", "This is not read"),
            refused(alloc, "{% set x = 1 %}{% endset %}", "This is not read"),
            refused(alloc, "{% setx = 1 %}", "This is not read"),
            refused(alloc, "{% set x = 1 | nosuch %}", "There is no such filter"),
        ],
    );
}
