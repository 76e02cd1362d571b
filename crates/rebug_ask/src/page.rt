//! The page around a picture, which folds and zooms it.

/// What stands before the picture.
pub const HEAD: &[u8] = b"<!doctype html>
<html lang=\"en\"><head><meta charset=\"utf-8\"><title>rebug picture</title>
<style>
body{margin:0;font:13px sans-serif}
#bar{position:fixed;top:0;left:0;right:0;background:#eef2f6;padding:6px 8px;border-bottom:1px solid #bbc;z-index:1}
#bar button{margin-right:6px}
#said{color:#333;margin-left:8px}
html{overflow:scroll}
svg{display:block;margin-top:38px;transform-origin:0 0;will-change:transform}
.bar rect{vector-effect:non-scaling-stroke}
.thin rect{fill-opacity:.5;stroke-opacity:.5}
.fold{cursor:pointer;font-weight:bold}
</style></head><body>
<div id=\"bar\"><button id=\"lanes\">by lane</button><button id=\"folders\">by folder</button>
<button id=\"in\">+</button><button id=\"out\">-</button><button id=\"fit\">fit</button><span id=\"said\"></span></div>
";

/// What stands behind it.
pub const TAIL: &[u8] = b"<script>
'use strict';
const svg = document.querySelector('svg'), id = name => document.getElementById(name);
const NS = 'http://www.w3.org/2000/svg', ROW = 20, TOP = 60, LONG = 300, ROWS = 60, LETTER = 6.1, BESIDE = 290;
const number = (it, name) => +it.getAttribute(name);
const set = (it, values) => { for (const key in values) it.setAttribute(key, values[key]); };
const ticks = [...svg.querySelectorAll('.tick')]
  .map(g => ({g, x: number(g.firstChild, 'x1'), words: g.lastChild.textContent}));
const LEFT = ticks.length ? ticks[0].x : 64, full = number(svg, 'width') - LEFT;
const bars = [...svg.querySelectorAll('.bar:not(.key)')].map(g => {
  const rect = g.querySelector('rect'), {began, ended, words, path} = g.dataset, cut = path.lastIndexOf('/');
  const name = words + path;
  return {g, rect, text: g.querySelector('text'), row: Math.round((number(rect, 'y') - TOP - 3) / ROW),
    x: number(rect, 'x') - LEFT, width: number(rect, 'width'), began: +began, ended: +(ended || began),
    name, folder: cut < 0 ? '' : path.slice(0, cut), short: cut < 0 ? name : path.slice(cut + 1)};
});
// The bars are scaled by their group; a label undoes that for itself.
const all = document.createElementNS(NS, 'g');
svg.insertBefore(all, bars.length ? bars[0].g : null);
all.append(...bars.map(bar => bar.g));
const lines = [...svg.querySelectorAll('.line,.race')].map(g => ({g, line: g.querySelector('line'),
  text: g.querySelector('text'), one: +g.dataset.one, other: +g.dataset.other}));
const names = [...svg.children].filter(it => it.tagName === 'text').slice(1);
const runs = bars.filter(bar => bar.row > 0);
// The folders as a tree; a folder with one folder alone in it stands as one with that.
const folderAt = path => ({path, folders: new Map(), bars: [], count: 0}), root = folderAt('');
for (const bar of runs) {
  let at = root;
  at.count++;
  for (const part of bar.folder ? bar.folder.split('/') : []) {
    if (!at.folders.has(part)) at.folders.set(part, folderAt(at === root ? part : at.path + '/' + part));
    at = at.folders.get(part);
    at.count++;
  }
  at.bars.push(bar);
}
const below = it => [...it.folders.values()].flatMap(below).concat(it.bars);
// From the top folder down: the folder with the most commands is told apart as long as few rows are left.
const unfold = () => {
  let rows = [root], closed = [];
  for (;;) {
    const most = rows.filter(it => it.folders && it.folders.size && !it.whole).sort((a, b) => b.count - a.count)[0];
    if (!most) break;
    const parts = [...most.folders.values()];
    if (most.bars.length) parts.push({path: most.path, own: true, bars: most.bars, count: most.bars.length});
    if (rows.length + parts.length - 1 > ROWS) { most.whole = true; continue; }
    rows.splice(rows.indexOf(most), 1, ...parts);
  }
  return rows.map(it => ({path: it.path || '(top)', tree: it, bars: it.folders ? below(it) : it.bars, isOpen: false}));
};
let zoom = 1, isFolded = runs.length > LONG || runs.some(bar => bar.row > ROWS), folders = unfold(), rows = 1;
let heads = [], made = [], seen = {}, isDue = false, stretch = 1, shift = 0, ending = 0;
const left = () => isFolded ? BESIDE : LEFT, across = (by, x) => 'matrix(' + [by, 0, 0, 1, x, 0] + ')';
const write = (list, words, x, y, act) => {
  const text = document.createElementNS(NS, 'text');
  set(text, {x, y});
  text.textContent = words;
  if (act) { text.setAttribute('class', 'fold'); text.onclick = act; }
  svg.appendChild(text);
  list.push(text);
};
// Gives each bar a row in which it meets no other, as low as can be.
const pack = (list, first) => {
  const ends = [];
  for (const bar of [...list].sort((a, b) => a.x - b.x)) {
    let row = ends.findIndex(end => end <= bar.x);
    if (row < 0) row = ends.push(0) - 1;
    ends[row] = bar.x + bar.width;
    bar.at = first + row;
  }
  return first + ends.length;
};
const openFolder = folder => {
  const parts = folder.tree.folders && folder.tree.folders.size ? [...folder.tree.folders.values()] : [];
  if (!parts.length) folder.isOpen = !folder.isOpen;
  else {
    if (folder.tree.bars.length) parts.push({path: folder.tree.path, own: true, bars: folder.tree.bars});
    folders.splice(folders.indexOf(folder), 1, ...parts.map(it => ({path: it.path || '(top)', tree: it,
      bars: it.folders ? below(it) : it.bars, isOpen: false})));
  }
  arrange();
};
const place = () => {
  rows = 1;
  for (const bar of bars) if (bar.row === 0) bar.at = 0;
  if (!isFolded) {
    for (const bar of runs) { bar.at = bar.row; bar.isThin = false; rows = Math.max(rows, bar.row + 1); }
    return;
  }
  write(heads, 'events', 4, TOP + 14);
  for (const folder of folders) {
    const head = rows++, name = folder.path.length > 34 ? '...' + folder.path.slice(-31) : folder.path;
    const words = (folder.isOpen ? '- ' : '+ ') + name + ' (' + folder.bars.length + ')';
    write(heads, words, 4, TOP + ROW * head + 14, () => openFolder(folder));
    if (folder.isOpen) rows = pack(folder.bars, rows);
    else for (const bar of folder.bars) bar.at = head;
    for (const bar of folder.bars) bar.isThin = !folder.isOpen;
  }
};
// Puts each bar into its row, and finds out how far the next bar of that row is.
const arrange = () => {
  for (const it of heads) it.remove();
  heads = [];
  for (const name of names) name.style.display = isFolded ? 'none' : '';
  place();
  const nexts = new Map();
  for (let at = bars.length - 1; at >= 0; at--) {
    const bar = bars[at], next = nexts.get(bar.at);
    bar.next = next === undefined ? full : next;
    nexts.set(bar.at, Math.min(bar.x, bar.next));
    if (bar.was !== bar.at) { bar.rect.setAttribute('y', TOP + ROW * bar.at + 3); bar.was = bar.at; }
    if (bar.wasThin !== bar.isThin) { bar.g.classList.toggle('thin', !!bar.isThin); bar.wasThin = bar.isThin; }
  }
  draw(scrollX);
};
// As much of a bar's name as there is room for before the next bar of its row, if it is near what the window shows.
const label = (bar, inside) => {
  const x = left() + bar.x * zoom, y = TOP + ROW * bar.at, isAside = y < seen.top || y > seen.bottom;
  if (bar.isThin || isAside || x > seen.right || left() + bar.next * zoom < seen.left) return '';
  const letters = Math.min(60, Math.floor(((bar.next - bar.x) * zoom - inside) / LETTER));
  return letters < 3 ? '' : bar.name.length <= letters ? bar.name : bar.short.slice(0, letters);
};
const drawLabels = () => {
  for (const bar of bars) {
    const width = bar.width * zoom, inside = 3 + (width < 8 ? width : 0), words = label(bar, inside);
    if (!words) { if (bar.text) bar.text.remove(); bar.text = null; continue; }
    if (!bar.text) { bar.text = document.createElementNS(NS, 'text'); bar.g.appendChild(bar.text); }
    if (bar.text.textContent !== words) bar.text.textContent = words;
    set(bar.text, {x: 0, y: TOP + ROW * bar.at + 14, transform: across(1 / zoom, LEFT + bar.x + inside / zoom)});
  }
};
const drawAxis = () => {
  for (const it of made) it.remove();
  made = [];
  for (const it of ticks) it.g.style.display = 'none';
  if (ticks.length < 2) return;
  const isTime = ticks[1].words.endsWith('s');
  const inMs = it => (it.words.endsWith(' s') ? 1000 : 1) * it.words.match(/\\d+/)[0];
  const unit = at => !isTime ? 'event ' + at : step < 1000 ? at + ' ms' : at / 1000 + ' s';
  const each = (inMs(ticks[1]) - inMs(ticks[0])) / (ticks[1].x - ticks[0].x) / zoom;
  const last = each * Math.min(seen.right - left(), full * zoom);
  let step = 1;
  for (let place = 0; step / each < 90; place++) step *= [2, 2.5, 2][place % 3];
  for (let at = Math.max(0, Math.floor((seen.left - left()) * each / step)) * step; at <= last; at += step) {
    const x = left() + at / each, line = document.createElementNS(NS, 'line');
    set(line, {x1: x, y1: 54, x2: x, y2: TOP + ROW * rows, stroke: '#ddd'});
    svg.insertBefore(line, all);
    made.push(line);
    if (x + 70 < left() + full * zoom) write(made, unit(at), x + 3, 56);
  }
};
const drawLines = () => {
  const places = new Map();
  for (const bar of bars) {
    const x = left() + bar.x * zoom, y = TOP + ROW * bar.at + 10;
    places.set(bar.began, [x, y]);
    if (bar.ended !== bar.began) places.set(bar.ended, [x + Math.max(1, bar.width * zoom), y]);
  }
  let top = TOP + ROW * rows + 16;
  for (const it of lines) {
    const one = places.get(it.one), other = places.get(it.other);
    it.g.style.display = one && other ? '' : 'none';
    if (!one || !other) continue;
    set(it.line, {x1: one[0], y1: one[1], x2: other[0], y2: other[1]});
    set(it.text, {x: 4, y: top});
    top += 12;
  }
  return top;
};
// What is labelled, where this place is at the left of the window: what that shows, and as much again on each side.
const look = x => {
  const wide = innerWidth, high = innerHeight;
  seen = {left: x - wide, right: x + 2 * wide, top: scrollY - high, bottom: scrollY + 2 * high};
};
const isSeen = () => scrollX - innerWidth / 2 >= seen.left && scrollX + 1.5 * innerWidth <= seen.right
  && scrollY - innerHeight / 2 >= seen.top && scrollY + 1.5 * innerHeight <= seen.bottom;
const lookAgain = () => {
  if (isDue || svg.style.transform || isSeen()) return;
  isDue = true;
  requestAnimationFrame(() => { isDue = false; look(scrollX); drawLabels(); drawAxis(); });
};
// Draws all at the zoom, with this place at the left of the window.
const draw = x => {
  const width = left() + full * zoom, place = Math.max(0, Math.min(x, width - document.documentElement.clientWidth));
  look(place);
  all.setAttribute('transform', across(zoom, left() - LEFT * zoom));
  drawLabels();
  drawAxis();
  set(svg, {width, height: drawLines() + 8});
  scrollTo(place, scrollY);
};
// A step of a zoom stretches what is drawn; when the zoom ends, or has gone far, all is drawn anew.
const end = () => {
  clearTimeout(ending);
  if (!svg.style.transform) return;
  const x = scrollX + left() * (1 - stretch) - shift;
  zoom *= stretch;
  [stretch, shift] = [1, 0];
  svg.style.transform = '';
  draw(x);
};
const scale = (factor, at) => {
  const about = scrollX + (at === undefined ? innerWidth / 2 : at);
  const by = Math.min(400, Math.max(0.002, zoom * stretch * factor)) / (zoom * stretch);
  stretch *= by;
  shift = about - by * (about - shift);
  svg.style.transform = across(stretch, shift);
  clearTimeout(ending);
  ending = setTimeout(end, stretch > 8 || stretch < 0.125 ? 0 : 150);
};
const fit = () => { end(); zoom = (innerWidth - left() - 20) / full; draw(0); };
id('lanes').onclick = () => { end(); isFolded = false; arrange(); };
id('folders').onclick = () => { end(); isFolded = true; folders = unfold(); arrange(); };
id('in').onclick = () => scale(1.5);
id('out').onclick = () => scale(1 / 1.5);
id('fit').onclick = fit;
addEventListener('wheel', event => {
  if (!event.ctrlKey) return;
  event.preventDefault();
  scale(event.deltaY < 0 ? 1.2 : 1 / 1.2, event.clientX);
}, {passive: false});
svg.addEventListener('mouseover', event => {
  const g = event.target.closest('g');
  const told = g && (g.querySelector('title') || g.querySelector('text'));
  id('said').textContent = told ? told.textContent : '';
});
addEventListener('scroll', lookAgain);
addEventListener('resize', lookAgain);
arrange();
if (isFolded) fit();
document.body.dataset.bars = bars.length;
</script></body></html>
";
