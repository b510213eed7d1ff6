//! What stands on each page before and behind the trace. The policy in the head forbids the page to load anything.

/// The head, with the style, and the search box.
pub const HEAD: &str = r#"<!DOCTYPE html>
<html lang="en">
<head>
<meta charset="utf-8">
<meta http-equiv="Content-Security-Policy" content="default-src 'none'; style-src 'unsafe-inline'; script-src 'unsafe-inline'">
<meta name="viewport" content="width=device-width">
<title>Trace</title>
<style>
:root { color-scheme: light dark; --red: #c00; --green: #070; --blue: #03c; --violet: #819; --brown: #850; --teal: #067; --grey: #666; }
@media (prefers-color-scheme: dark) {
  :root { --red: #f77; --green: #7d7; --blue: #8bf; --violet: #e9f; --brown: #eb5; --teal: #5cd; --grey: #999; }
}
body { font: 14px/1.5 sans-serif; margin: 0 auto; max-width: 70em; padding: 0 1em 1em; }
header { background: Canvas; padding: 1em 0; position: sticky; top: 0; }
summary, div, .fault, code { font-family: monospace; overflow-wrap: anywhere; white-space: pre-wrap; }
summary { cursor: pointer; }
code { color: var(--grey); padding-left: 1ch; }
i { color: var(--grey); font: italic 13px/1.5 sans-serif; padding-left: 1ch; }
details:not(:has(div)) > summary { list-style: none; padding-left: 2ch; }
div { padding-left: calc(var(--depth) * 2ch + 2ch); }
.emit, .connect { color: var(--brown); }
.call, .native { color: var(--green); }
.set, .group, .bind { color: var(--blue); }
.follow, .post { color: var(--teal); }
.dead, .disconnect { color: var(--violet); }
.null, .other { color: var(--grey); }
div.refused, .refused b, .fault { color: var(--red); }
.refused b::before, .fault::before { content: "\2717  "; }
details:has(div.refused) > summary::after { color: var(--red); content: " \2717"; }
.fault { border: 2px solid; font-weight: bold; padding: 0.5em; }
.found { background: Mark; color: MarkText; }
</style>
</head>
<body>
<header>
<input id="search" type="search" placeholder="Search" aria-label="Search" autofocus>
<button id="open" type="button">Open all</button>
<button id="close" type="button">Close all</button>
<output id="count" for="search"></output>
</header>
<main>
"#;

/// The script of the search box and of the buttons. It reads what the page has, and puts nothing into it but marks.
pub const FOOT: &str = r#"</main>
<script>
const search = document.getElementById("search");
const events = Array.from(document.querySelectorAll("details"));
const first = events.find((event) => event.open);
const has = (element, text) => element.textContent.toLowerCase().includes(text);
function find() {
  const text = search.value.toLowerCase();
  for (const event of events) {
    event.hidden = !has(event, text);
    event.open = text === "" ? event === first : !event.hidden;
    for (const line of event.children) {
      line.classList.toggle("found", text !== "" && has(line, text));
    }
  }
  const found = events.filter((event) => !event.hidden).length;
  document.getElementById("count").value = `${found} of ${events.length} events`;
}
function openAll(open) {
  for (const event of events) event.open = open;
}
search.addEventListener("input", find);
document.getElementById("open").addEventListener("click", () => openAll(true));
document.getElementById("close").addEventListener("click", () => openAll(false));
find();
</script>
</body>
</html>
"#;
