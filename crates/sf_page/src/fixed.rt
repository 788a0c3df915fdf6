//! The parts of a page that are the same in each.

ghost use Rattle.std.specs.Prelude.{◌≡◌};
ghost use Rattle.sf_page.specs.Fixed.{fixed_text};

/// A part that is the same in each page.
#[derive(Clone, Copy)]
pub enum Fixed {
    /// What comes before the title.
    Head,
    /// What comes behind the title, with the style.
    Style,
    /// The end, with the script.
    Script,
}

/// What comes before the title.
pub const HEAD: &str = r#"<!DOCTYPE html>
<html lang="en">
<head>
<meta charset="utf-8">
<meta name="viewport" content="width=device-width, initial-scale=1">
<title>"#;

/// What comes behind the title, with the style.
pub const STYLE: &str = r#"</title>
<style>
:root {
  color-scheme: light dark;
  --paper: #fbfaf7; --sheet: #ffffff; --ink: #23272e; --soft: #6c727c; --rule: #e4e2dc;
  --accent: #2c5f93; --tint: #e6eef7; --mark: #ffe9a8; --bad: #b02a21; --badtint: #fbe9e7;
  --fine: #2d6f45; --mono: ui-monospace, "SF Mono", "Cascadia Mono", "DejaVu Sans Mono", Menlo,
  Consolas, monospace; --sans: system-ui, -apple-system, "Segoe UI", "Noto Sans", sans-serif;
  --t0: #b9d4f1; --t1: #f4d7a6; --t2: #c4e3bf; --t3: #e9c3da; --t4: #d6cdf0; --t5: #bfe3e0;
  --t6: #efc9bd; --t7: #dcdcae;
}
@media (prefers-color-scheme: dark) {
  :root {
    --paper: #17191d; --sheet: #1f2227; --ink: #dfe2e7; --soft: #959ca8; --rule: #33373e;
    --accent: #86b7ea; --tint: #26364a; --mark: #5a4a12; --bad: #ff8f85; --badtint: #43211f;
    --fine: #86cf9d; --t0: #27486b; --t1: #64491a; --t2: #2f5530; --t3: #613752; --t4: #483b73;
    --t5: #235552; --t6: #683a2d; --t7: #55551f;
  }
}
[data-owner="0"] { --tone: var(--t0); } [data-owner="1"] { --tone: var(--t1); }
[data-owner="2"] { --tone: var(--t2); } [data-owner="3"] { --tone: var(--t3); }
[data-owner="4"] { --tone: var(--t4); } [data-owner="5"] { --tone: var(--t5); }
[data-owner="6"] { --tone: var(--t6); } [data-owner="7"] { --tone: var(--t7); }
* { box-sizing: border-box; }
body { margin: 0; background: var(--paper); color: var(--ink); font: 14px/1.5 var(--sans);
  display: grid; grid-template-columns: minmax(20rem, 5fr) minmax(24rem, 7fr);
  grid-template-rows: auto 1fr; }
.defs { position: absolute; }
.top { grid-column: 1 / -1; display: flex; flex-wrap: wrap; gap: .2rem 1.4rem;
  align-items: baseline; padding: .7rem 1.2rem; border-bottom: 1px solid var(--rule); }
.title { font: 600 1.15rem var(--mono); margin: 0; overflow-wrap: anywhere; }
.summary { margin: 0; } .note { margin: 0; color: var(--soft); font-size: .86rem; }
.top .note { margin-left: auto; }
.source { padding: .6rem 0 2rem; overflow-x: auto; border-right: 1px solid var(--rule); }
.caption { font: 600 .74rem var(--sans); letter-spacing: .06em; text-transform: uppercase;
  color: var(--soft); margin: 0 0 .35rem; }
.source .caption { padding-left: 1.2rem; }
.source:has(+ .tracks:empty) { grid-column: 1 / -1; border: 0; }
.tracks:empty { display: none; }
.line { display: flex; font: 13px/1.55 var(--mono); }
.line .words { flex: 1; min-width: 0; font: inherit; white-space: pre-wrap;
  overflow-wrap: anywhere; padding: 0 1.2rem 0 4ch; text-indent: -4ch; }
.row { flex: none; width: 4.5em; padding-right: 1.3em; text-align: right; color: var(--soft);
  text-decoration: none; user-select: none; opacity: .75; }
.here { background: var(--tint); } .here .row { color: var(--accent); opacity: 1; }
.marked { background: var(--badtint); } .marked .row { color: var(--bad); opacity: 1; }
.said { margin: 0 0 .3rem min(calc(4.5em + var(--depth) * 1ch), 50%); color: var(--bad);
  font: 13px/1.5 var(--mono); white-space: pre-wrap; padding-right: 1.2rem; }
.said::before { content: "^ "; font-weight: 700; }
::highlight(command) { background: var(--mark); }
.tracks { padding: .6rem 1.2rem 2rem; }
.track { margin-bottom: 1.6rem; }
.track .caption .name { font-family: var(--mono); text-transform: none; letter-spacing: 0;
  font-size: .95rem; color: var(--ink); text-decoration: none; }
.verdict { text-transform: none; letter-spacing: 0; font-weight: 500; margin-left: .4rem; }
.fine .verdict { color: var(--fine); } .bad .verdict { color: var(--bad); }
.steps { list-style: none; margin: 0; padding: 0; border-top: 1px solid var(--rule); }
.step { --in: calc(min(var(--depth), 14) * .85rem);
  padding: .12rem .5rem .12rem calc(var(--in) + .5rem);
  background-image: repeating-linear-gradient(to right, var(--rule) 0 1px, transparent 1px .85rem);
  background-size: var(--in) 100%; background-repeat: no-repeat;
  background-position: .5rem 0; overflow-wrap: anywhere; }
.tag { font: 600 12.5px var(--mono); color: var(--ink); text-decoration: none; }
.rule { color: var(--soft); font-size: .84rem; }
.fails .tag { color: var(--bad); }
.view { margin: .3rem 0 .8rem; }
.scene { display: grid; gap: .8rem; align-content: start; min-width: 0; }
.group { min-width: 0; overflow-x: auto; }
.view > .group { margin-bottom: .8rem; }
.values { display: flex; flex-wrap: wrap; gap: .25rem .5rem; }
.value { font: 12.5px var(--mono); padding: .05rem .45rem; border: 1px solid var(--rule);
  border-radius: 4px; background: var(--sheet); overflow-wrap: anywhere; }
.value .name { font-weight: 600; } .value .term { color: var(--accent); }
.wanted, .helps { margin: 0; padding-left: 1.4rem; }
.wanted { padding: 0; list-style: none; }
.helps { list-style: disc; }
.helps .name { font: .93em var(--mono); }
.wanted .words { font: 13px/1.6 var(--mono); overflow-wrap: anywhere; white-space: pre-wrap; }
.wanted li:first-child { font-weight: 600; }
.group > code.words { display: block; white-space: pre-wrap; overflow-wrap: anywhere;
  font: 12.5px/1.5 var(--mono); }
.beside { display: flex; flex-wrap: wrap; gap: 1.2rem; margin-bottom: .9rem; }
.beside > * { flex: 1 1 26rem; }
.beside > .group { border-left: 3px solid var(--bad); padding-left: .9rem; }
.beside > .group > .caption { margin-bottom: .7rem; color: var(--bad); }
.beside code.words { margin-top: .6rem; }
.tasks { display: flex; gap: .7rem; overflow-x: auto; }
.task { flex: 1 1 12rem; padding: .5rem .7rem; background: var(--sheet);
  border: 1px solid var(--rule); border-top: 4px solid var(--tone, var(--rule)); }
.doing { display: block; font: 12.5px var(--mono); margin-bottom: .4rem; }
.owners { margin: 0 0 .4rem; display: flex; flex-wrap: wrap; gap: .4rem; }
.owner { background: var(--tone, var(--tint)); border-radius: 4px; padding: 0 .5rem;
  font-size: .84rem; }
.heap { display: block; max-width: 100%; height: auto; font: 12px var(--mono); }
.cell, .dashed { fill: var(--sheet); stroke: var(--soft); stroke-width: 1.1; rx: 4px; }
.dashed { stroke-dasharray: 5 3; rx: 11px; }
.bar { fill: var(--tone, var(--tint)); fill-opacity: .8; rx: 4px; }
.dashed + .bar { rx: 11px; }
.heap text { fill: var(--ink); }
.at { font-weight: 700; } .kind, .content { text-anchor: end; }
.heap .kind, .heap .field { fill: var(--soft); }
.heap .pointers { fill: var(--accent); font-weight: 600; white-space: pre; }
.arrow { fill: none; stroke: var(--accent); stroke-width: 1.4; marker-end: url(#head); }
.loose { stroke-dasharray: 5 3; }
#head path { fill: var(--accent); }
[data-gone="1"] { opacity: .4; }
@media screen {
  .js body { height: 100vh; grid-template-columns: minmax(18rem, 5fr) minmax(15rem, 4fr)
    minmax(20rem, 6fr); overflow: hidden; }
  .js .source, .js .tracks, .js .panel { overflow: auto; min-height: 0; }
  .js .steps .view { display: none; }
  .js .step { cursor: pointer; white-space: nowrap; overflow: hidden; text-overflow: ellipsis;
    scroll-margin: 3.2rem 0 1.6rem; }
  .js .step:hover { background-color: var(--tint); }
  .js .chosen, .js .chosen:hover { background-color: var(--tint);
    box-shadow: inset 3px 0 var(--accent); }
  .js .chosen.fails { background-color: var(--badtint); box-shadow: inset 3px 0 var(--bad); }
  .js .tracks { padding: .6rem .6rem 2rem; border-right: 1px solid var(--rule); }
  .panel { padding: .6rem 1.2rem 2rem; }
  .panel .tag { font-size: 1rem; } .panel .rule { margin: .1rem 0 .9rem; font-size: .92rem; }
  .panel .place { color: var(--soft); font-size: .84rem; float: right; }
}
@media screen and (max-width: 62rem) {
  body { display: block; }
  .js body { height: auto; overflow: visible; }
  .js .source { max-height: 45vh; border-bottom: 1px solid var(--rule); }
  .js .tracks { max-height: 30vh; border-bottom: 1px solid var(--rule); }
  .heap { max-width: none; }
}
@media print {
  body { display: block; background: none; font-size: 11px; }
  .panel, .top .note.keys { display: none; }
  .here { background: none; }
  ::highlight(command) { background: none; }
  .source, .tracks { overflow: visible; border: 0; }
  .step, .figure, .group { break-inside: avoid; }
}
</style>
</head>
<body>
<svg class="defs" width="0" height="0" aria-hidden="true"><defs>
<marker id="head" viewBox="0 0 8 8" refX="7" refY="4" markerWidth="7" markerHeight="7"
 orient="auto-start-reverse"><path d="M0 0 L8 4 L0 8 z"/></marker></defs></svg>
"#;

/// The end, with the script. It has no `<` but those of its tags.
pub const SCRIPT: &str = r#"<script>
(function () {
  'use strict';
  var steps = Array.from(document.querySelectorAll('.step'));
  var panel = document.createElement('aside');
  var now = -1;
  panel.className = 'panel';
  document.documentElement.classList.add('js');
  document.body.appendChild(panel);

  function make(name, className, text) {
    var element = document.createElement(name);
    element.className = className;
    element.textContent = text;
    return element;
  }

  function letters(number) {
    var line = document.getElementById('L' + number);
    return line ? line.querySelector('.words').firstChild : null;
  }

  function command(text) {
    var end = text.search(/[;{}]/);
    return end > 0 ? end : end === 0 ? 1 : text.length;
  }

  function highlight(at, first, last) {
    var from = letters(first), to = letters(last), range, start, end;
    if (!window.Highlight || !CSS.highlights) { return; }
    CSS.highlights.delete('command');
    if (!from || !to) { return; }
    start = Math.min(from.length, Math.max(0, Number(at.dataset.column) - 1));
    end = Math.min(to.length, Math.max(0, Number(at.dataset.endColumn) - 1));
    if (first === last && start >= end) { end = start + command(from.data.slice(start)); }
    range = document.createRange();
    range.setStart(from, start);
    range.setEnd(to, end);
    CSS.highlights.set('command', new Highlight(range));
  }

  function reveal(it) {
    var room = it.closest('.source, .tracks'), inner, outer;
    inner = it.getBoundingClientRect();
    outer = room.getBoundingClientRect();
    if (outer.top + 50 > inner.top) {
      room.scrollTop -= outer.top + 50 - inner.top;
    } else if (inner.bottom > outer.bottom - 30) {
      room.scrollTop += inner.bottom - outer.bottom + 30;
    }
  }

  function mark(at) {
    var first = Number(at.dataset.line), last = Math.max(first, Number(at.dataset.endLine));
    var number, line, top = null;
    document.querySelectorAll('.here').forEach(function (old) { old.classList.remove('here'); });
    highlight(at, first, last);
    for (number = first; first > 0 && last >= number; number += 1) {
      line = document.getElementById('L' + number);
      if (line) { line.classList.add('here'); top = top || line; }
    }
    if (top) { reveal(top); }
  }

  function choose(index) {
    var step = steps[index], old = steps[now], track, place;
    if (!step || index === now) { return; }
    if (old) { old.classList.remove('chosen'); }
    now = index;
    step.classList.add('chosen');
    track = Array.from(step.parentNode.children);
    place = 'step ' + (track.indexOf(step) + 1) + ' of ' + track.length;
    panel.replaceChildren(
      make('span', 'place', place),
      make('div', 'tag', step.querySelector('.tag').textContent),
      make('div', 'rule', step.querySelector('.rule').textContent),
      step.querySelector('.view').cloneNode(true)
    );
    panel.scrollTop = 0;
    mark(step);
    reveal(step);
    if (!old) { return; }
    try { history.replaceState(null, '', '#' + step.id); } catch (fault) { now = index; }
  }

  function track(way) {
    var here = steps[now] && steps[now].parentNode, index = now;
    while (steps[index] && steps[index].parentNode === here) { index += way; }
    if (!steps[index]) { return; }
    choose(steps.indexOf(steps[index].parentNode.querySelector('.step')));
  }

  var keys = {
    ArrowDown: function () { choose(now + 1); }, ArrowUp: function () { choose(now - 1); },
    j: function () { choose(now + 1); }, k: function () { choose(now - 1); },
    ArrowRight: function () { track(1); }, ArrowLeft: function () { track(-1); },
    Home: function () { choose(0); }, End: function () { choose(steps.length - 1); }
  };

  document.addEventListener('keydown', function (event) {
    var act = keys[event.key];
    if (!act || event.ctrlKey || event.altKey || event.metaKey) { return; }
    event.preventDefault();
    act();
  });

  document.addEventListener('click', function (event) {
    var task = event.target.closest('.task');
    var step = event.target.closest('.step');
    var row = event.target.closest('.row');
    if (task) { mark(task); return; }
    if (row) {
      step = steps.find(function (it) { return it.dataset.line === row.textContent; });
    }
    if (step) { event.preventDefault(); choose(steps.indexOf(step)); }
  });

  function fromAddress() {
    return steps.findIndex(function (it) { return '#' + it.id === location.hash; });
  }

  window.addEventListener('hashchange', function () { choose(fromAddress()); });
  var first = fromAddress();
  if (first === -1) {
    first = steps.findIndex(function (it) { return it.classList.contains('fails'); });
  }
  if (steps.length > 0) {
    document.querySelector('.top .note').before(
      make('p', 'note keys', 'arrow keys: steps and procedures'));
    choose(Math.max(first, 0));
  } else {
    panel.remove();
    document.documentElement.classList.remove('js');
  }
}());
</script>
</body>
</html>
"#;

/// The text of a fixed part.
pub fn fixed_text(fixed: Fixed) -> &'static str
    ensures { result.now ≡ fixed_text fixed }
{
    match fixed {
        Fixed::Head => HEAD,
        Fixed::Style => STYLE,
        Fixed::Script => SCRIPT,
    }
}
