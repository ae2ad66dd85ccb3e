//! Where a page is refused: the reports of what a template asks for in vain.
use crate::held::{Seen, hold, same};
use crate::shop::shop;
use std::alloc::Global;
use tera::{ErrorKind, TeraResult};
use tera_page::{parse_named, render_named};

// The page of a template of a file.
fn page_of(alloc: Global, text: &str) -> TeraResult<String> {
    let template = parse_named(alloc, "shop.html", text)?;
    render_named(alloc, "shop.html", text, &template, &shop(alloc)?)
}

// What is told of a page, with a word for the kind of its error.
fn told(alloc: Global, text: &str) -> String {
    let made = match page_of(alloc, text) {
        Ok(page) => format!(in alloc; "page: {page}"),
        Err(error) => match error.kind() {
            ErrorKind::RenderingError(_) => format!(in alloc; "rendering {error}"),
            ErrorKind::SyntaxError(_) => format!(in alloc; "syntax {error}"),
            _ => format!(in alloc; "other {error}"),
        },
    };
    made.unwrap_or(String::new(alloc))
}

// The template is told so.
fn tells(alloc: Global, text: &str, wanted: &str) -> Seen {
    same(alloc, told(alloc, text).as_str(), wanted)
}

#[test]
fn a_refusal_is_told_at_its_tag(rt: HostRuntime) {
    let alloc = rt.alloc();
    hold!(
        &rt,
        [
            tells(alloc, "{{ count }}", "page: 3"),
            tells(
                alloc,
                "<p>\n  é{{ absent }}</p>\n",
                "rendering error: Nothing is found at `absent`\n --> shop.html:2:4\n  |\n\
                2 |   é{{ absent }}</p>\n  |    ^^"
            ),
            tells(
                alloc,
                "{{ count }}\n  {{- 1 // zero }}",
                "rendering error: Cannot divide by 0\n --> shop.html:2:3\n  |\n\
                2 |   {{- 1 // zero }}\n  |   ^^"
            ),
            tells(
                alloc,
                "{{ absent",
                "syntax error: This is not read\n --> shop.html:1:1\n  |\n1 | {{ absent\n  | ^^"
            ),
        ],
    );
}

#[test]
fn each_tag_tells_its_own_place(rt: HostRuntime) {
    let alloc = rt.alloc();
    hold!(
        &rt,
        [
            tells(
                alloc,
                "a{% for w in count %}{{ w }}{% endfor %}",
                "rendering error: What is found at `count` is no array\n --> shop.html:1:2\n  |\n\
                1 | a{% for w in count %}{{ w }}{% endfor %}\n  |  ^^"
            ),
            tells(
                alloc,
                "{% if zero %}a{% elif title + 1 %}b{% endif %}",
                "rendering error: Only numbers can be used in arithmetic. This is a `string`\n \
                --> shop.html:1:15\n  |\n\
                1 | {% if zero %}a{% elif title + 1 %}b{% endif %}\n  |               ^^"
            ),
            tells(
                alloc,
                "{% set x = title | sort %}",
                "rendering error: Invalid type for the value, expected `&[Value]` but got \
                `string`\n --> shop.html:1:1\n  |\n1 | {% set x = title | sort %}\n  | ^^"
            ),
            tells(
                alloc,
                "{% for w in words %}\n{{ w.a }}{% endfor %}",
                "rendering error: Nothing is found at `w.a`\n --> shop.html:2:1\n  |\n\
                2 | {{ w.a }}{% endfor %}\n  | ^^"
            ),
        ],
    );
}
