//! What templates show, and what they are refused with.
use crate::held::{Seen, hold, is_so, same};
use crate::shop::{refused, shows, told};
use std::alloc::Global;
use tera::TeraResult;

#[test]
fn values_are_shown(rt: HostRuntime) {
    let alloc = rt.alloc();
    hold!(
        &rt,
        [
            shows(alloc, "", ""),
            shows(alloc, "plain { text } % #", "plain { text } % #"),
            shows(alloc, "{{ count }}", "3"),
            shows(alloc, "{{count}}{{\n count\t}}", "33"),
            shows(alloc, "{{ title }}", "Tea &amp; &lt;Cakes&gt;"),
            shows(alloc, "{{ title | escape }}", "Tea &amp; &lt;Cakes&gt;"),
            shows(alloc, "{{ title|safe }}", "Tea & <Cakes>"),
            shows(alloc, "{{ markup }}{{ markup | escape }}", "<b><b>"),
            shows(alloc, "{{ a.b.1 }}", "y"),
            shows(alloc, "{{ nothing }}", ""),
            shows(alloc, "{# a {{ comment }} #}x{##}", "x"),
            shows(alloc, "{{ a.b }}", "[&quot;x&quot;, &quot;y&quot;]"),
        ],
    );
}

#[test]
fn parts_are_chosen_and_repeated(rt: HostRuntime) {
    let alloc = rt.alloc();
    hold!(
        &rt,
        [
            shows(alloc, "{% if count %}a{% endif %}b", "ab"),
            shows(alloc, "{% if zero %}a{% endif %}b", "b"),
            shows(alloc, "{% if absent %}a{% else %}b{% endif %}", "b"),
            shows(alloc, "{% if a.b.7 %}a{% else %}b{% endif %}", "b"),
            shows(
                alloc,
                "{% if zero %}a{% elif empty %}b{% elif words %}c{% else %}d{% endif %}",
                "c",
            ),
            shows(alloc, "{% for w in words %}<{{ w }}>{% endfor %}", "<x><y>"),
            shows(
                alloc,
                "{% for w in empty %}a{% else %}none{% endfor %}",
                "none",
            ),
            shows(
                alloc,
                "{% for w in words %}{% for count in a.b %}{{ w }}{{ count }} {% endfor %}\
                {{ count }}{% endfor %}",
                "xx xy 3yx yy 3",
            ),
        ],
    );
}

#[test]
fn pairs_are_repeated(rt: HostRuntime) {
    let alloc = rt.alloc();
    hold!(
        &rt,
        [
            shows(
                alloc,
                "{% for k, v in prices %}{{ k }}={{ v }};{% endfor %}",
                "&lt;tea&gt;=2;-7=&amp;;true=;",
            ),
            shows(
                alloc,
                "{%for k,v in prices%}{{loop.index}}{{k|safe}} {%endfor%}",
                "1<tea> 2-7 3true "
            ),
            shows(
                alloc,
                "{% for k\n,\tv in a %}{{ k }}{{ v.1 }}{{ loop.last }}{% endfor %}",
                "bytrue"
            ),
            shows(alloc, "{% for v, v in a %}{{ v.0 }}{% endfor %}", "x"),
            shows(
                alloc,
                "{% for k, v in no_prices %}a{% else %}none{% endfor %}",
                "none"
            ),
            shows(
                alloc,
                "{% for title, count in a %}{{ title }}{% endfor %}{{ count }}",
                "b3"
            ),
            refused(alloc, "{% for k, in a %}{% endfor %}", "This is not read"),
            refused(
                alloc,
                "{% for k v, w in a %}{% endfor %}",
                "This is not read"
            ),
            refused(
                alloc,
                "{% for k, v in words %}{% endfor %}",
                "What is found at `words` is no map"
            ),
            refused(
                alloc,
                "{% for k, v in a.b %}{% endfor %}",
                "What is found at `a.b` is no map"
            ),
            refused(
                alloc,
                "{% for k, v in missing %}{% endfor %}",
                "Nothing is found at `missing`"
            ),
            refused(
                alloc,
                "{% for k in prices %}{% endfor %}",
                "What is found at `prices` is no array"
            ),
            refused(
                alloc,
                "{% for k, v in prices %}{% endfor %}{{ k }}",
                "Nothing is found at `k`"
            ),
        ],
    );
}

#[test]
fn turns_are_counted(rt: HostRuntime) {
    let alloc = rt.alloc();
    hold!(
        &rt,
        [
            shows(
                alloc,
                "{% for w in words %}{{ loop.index }}{{ loop.index0 }}{{ w }} {% endfor %}",
                "10x 21y ",
            ),
            shows(
                alloc,
                "{% for w in words %}{{ loop.first }} {{ loop.last }};{% endfor %}",
                "true false;false true;",
            ),
            shows(
                alloc,
                "{% for w in words %}{{ w }}{% if loop.last %}.{% else %}, {% endif %}{% endfor %}",
                "x, y.",
            ),
            shows(
                alloc,
                "{% for v in words %}{{ loop.index }}{% for w in words %}{% for w in words %}\
                {{ loop.index }}{% endfor %}{% endfor %}{{ loop.index }} {% endfor %}",
                "112121 212122 ",
            ),
            shows(
                alloc,
                "{% for v in words %}{% for w in empty %}{% else %}{{ loop.index }}{% endfor %}\
                {% endfor %}",
                "12",
            ),
            shows(alloc, "{% if loop.first %}a{% else %}b{% endif %}", "b"),
            refused(
                alloc,
                "{{ loop.index }}",
                "Nothing is found at `loop.index`"
            ),
            refused(
                alloc,
                "{% for w in words %}{% endfor %}{{ loop.last }}",
                "Nothing is found at `loop.last`",
            ),
            refused(
                alloc,
                "{% for w in empty %}{% else %}{{ loop.first }}{% endfor %}",
                "Nothing is found at `loop.first`",
            ),
        ],
    );
}

#[test]
fn blanks_are_left_out(rt: HostRuntime) {
    let alloc = rt.alloc();
    hold!(
        &rt,
        [
            shows(alloc, "a {{- count -}} b", "a3b"),
            shows(alloc, "a {{- count }} b", "a3 b"),
            shows(alloc, "a {{ count -}} b", "a 3b"),
            shows(alloc, "a \t\r\n {#- said -#} \n\n b", "ab"),
            shows(alloc, "a {#-#} b", "a b"),
            shows(alloc, "a {#--#} b", "ab"),
            shows(alloc, " {{-count-}} ", "3"),
            shows(alloc, "{{ count -}}  {{- count }}", "33"),
            shows(alloc, "{{ count }}  {{- count }}", "33"),
            shows(alloc, "{{ count -}}  {{ count }}", "33"),
            shows(alloc, "{{ count -}}{ }", "3{ }"),
            shows(alloc, "\u{a0}{{- count }}", "\u{a0}3"),
            shows(alloc, "{%- if count -%} a {%- endif -%} b", "ab"),
            shows(
                alloc,
                "{% if zero %} a {%- else -%} b {% endif -%} c",
                "b c"
            ),
            shows(
                alloc,
                "<ul>\n  {%- for w in words %}\n  <li>{{ w }}</li>\n  {%- endfor %}\n</ul>",
                "<ul>\n  <li>x</li>\n  <li>y</li>\n</ul>",
            ),
        ],
    );
}

#[test]
fn what_is_not_there_is_refused(rt: HostRuntime) {
    let alloc = rt.alloc();
    hold!(
        &rt,
        [
            refused(alloc, "{{ absent }}", "Nothing is found at `absent`"),
            refused(alloc, "{{ missing }}", "Nothing is found at `missing`"),
            refused(alloc, "{{ a.c.0 }}", "Nothing is found at `a.c.0`"),
            refused(
                alloc,
                "{% for w in count %}{% endfor %}",
                "What is found at `count` is no array",
            ),
            refused(
                alloc,
                "{% for w in words %}{% endfor %}{{ w }}",
                "Nothing is found at `w`",
            ),
        ],
    );
}

#[test]
fn what_is_no_template_is_refused(rt: HostRuntime) {
    let alloc = rt.alloc();
    hold!(
        &rt,
        [
            refused(alloc, "{{ count", "This is not read"),
            refused(alloc, "{{ }}", "This is not read"),
            refused(alloc, "{{ 1x }}", "This is not read"),
            refused(alloc, "{{ loop }}", "This is not read"),
            refused(alloc, "{{ a..b }}", "This is not read"),
            refused(alloc, "{{ a. }}", "This is not read"),
            refused(alloc, "{{ loop }}", "This is not read"),
            refused(alloc, "{{ loop.length }}", "This is not read"),
            refused(alloc, "{{ loop.index.a }}", "This is not read"),
            refused(
                alloc,
                "{% for loop.index in a %}{% endfor %}",
                "This is not read"
            ),
            refused(alloc, "{{ a b }}", "This is not read"),
            refused(alloc, "{% if a %}", "This is not read"),
            refused(alloc, "{% if a %}{% endfor %}", "This is not read"),
            refused(alloc, "{% endif %}", "This is not read"),
            refused(alloc, "{% else %}", "This is not read"),
            refused(alloc, "{% iffy %}{% endif %}", "This is not read"),
            refused(alloc, "{% for a of b %}{% endfor %}", "This is not read"),
            refused(alloc, "{%- if a %}{% endfor %}", "This is not read"),
            shows(alloc, "{{ -count }}", "-3"),
            shows(alloc, "{{-- count }}", "-3"),
            refused(alloc, "{# open", "This is not read"),
            refused(alloc, "x\n  {#- open -", " --> :2:3\n"),
        ],
    );
}

// A choice inside so many others.
fn nested(alloc: Global, levels: usize) -> TeraResult<String> {
    let mut text = String::new(alloc);
    for _ in 0..levels {
        text.push_str("{% if a %}")?;
    }
    for _ in 0..levels {
        text.push_str("{% endif %}")?;
    }
    Ok(text)
}

// A choice inside so many others is read, or is told to be too deep.
fn reads(alloc: Global, levels: usize, wanted: &str) -> Seen {
    let Ok(text) = nested(alloc, levels) else {
        return same(alloc, "no memory", wanted);
    };
    let found = told(alloc, text.as_str());
    let holds = found.as_str().is_empty() == wanted.is_empty() && found.as_str().contains(wanted);
    is_so(alloc, holds, found.as_str(), wanted)
}

#[test]
fn levels_are_bounded(rt: HostRuntime) {
    let alloc = rt.alloc();
    hold!(
        &rt,
        [
            reads(alloc, 64, ""),
            reads(alloc, 65, "More than 64 levels")
        ],
    );
}
