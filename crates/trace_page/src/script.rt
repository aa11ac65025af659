//! The end of a page: the script that steps through its rows. Without it the page can be read and printed as it is. With it the
//! picture and the table are text at first, of which the rows near those in sight are made at once and all others when the page is
//! open, so that a long run opens quickly.

/// The end of the table and of what is kept as text, the script, and the end of the page. The script reads the page alone, and asks
/// for nothing outside it.
pub(crate) const FOOT: &[u8] = b"\
</tbody>\n\
</table>\n\
</div>\n\
</noscript>\n\
<script>\n\
'use strict';\n\
(() => {\n\
const all = (q, at = document) => [...at.querySelectorAll(q)];\n\
const one = (q) => document.querySelector(q);\n\
const drawn = new Set(['rect', 'svg', 'path', 'g']);\n\
const make = (tag, set = {}, text = '') => {\n\
const at = drawn.has(tag) ? document.createElementNS('http://www.w3.org/2000/svg', tag) : document.createElement(tag);\n\
for (const k in set) at.setAttribute(k, set[k]);\n\
if (text) at.textContent = text;\n\
return at;\n\
};\n\
\n\
// THE TEXT of the picture and the table: where their bands, marks and rows begin and end in it, and what is read of each\n\
const kept = one('noscript');\n\
// a page that a browser has saved has all of it already\n\
if (!kept) return document.documentElement.classList.remove('on');\n\
const whole = kept.textContent;\n\
const after = (text, from) => whole.indexOf(text, from) + text.length;\n\
const b0 = after('<g>\\n', 0), b1 = whole.indexOf(\"</g>\\n<g class='lives'>\", b0), m0 = after(\"<g class='marks'>\\n\", b1), m1 = whole.indexOf('</g>\\n</svg>', m0);\n\
const t0 = after(\"<tbody class='events'>\\n\", m1), t1 = whole.lastIndexOf('</tbody>');\n\
const read = (from, to, head, form, of) => whole.slice(from, to).split(head).slice(1).map((rest, k) => of(head + rest, form.exec(rest), k));\n\
const signs = { amp: '&', lt: '<', gt: '>', quot: '\"', '#39': \"'\", '#8230': '\\u2026' };\n\
const plain = (text) => text.replace(/&(\\w+|#\\d+);/g, (was, name) => signs[name] ?? was);\n\
const bands = read(b0, b1, \"<g class='band\", / y='(\\d+)' width='\\d+' height='(\\d+)'/, (text, m) => ({ text, top: Number(m[1]), high: Number(m[2]) }));\n\
const rows = read(t0, t1, '<tr ', /^(class='marked' )?id='(\\d+)'><th scope='row'>\\d+<\\/th><td>([^<]*)/, (text, m, k) => ({ text, id: m[2], k, isMarked: Boolean(m[1]), words: plain(m[3]), band: bands[k], marks: [], ways: [] }));\n\
const places = new Map(rows.map((row, k) => [row.id, k]));\n\
const marks = read(m0, m1, \"<g class='\", /^(\\w+)(?: c(\\d+))?' data-e='(\\d+)'><title>([^<]*)<\\/title><path (?:class='across' )?d='M(\\d+) (\\d+)/, (text, m) => ({ text, kind: m[1], column: Number(m[2] ?? 0), k: places.get(m[3]), title: plain(m[4]), x: Number(m[5]), y: Number(m[6]) }));\n\
for (const m of marks) rows[m.k].marks.push(m);\n\
// all else comes into the page at once\n\
kept.previousElementSibling.remove();\n\
kept.outerHTML = whole.slice(0, b0) + whole.slice(b1, m0) + whole.slice(m1, t0) + whole.slice(t1);\n\
if (!rows.length) return;\n\
document.documentElement.classList.add('on');\n\
const diagram = one('.diagram'), picture = one('.picture'), ways = all('.arrows > path'), lines = all('.prog li');\n\
const names = all('.names text').map((t) => t.textContent);\n\
for (const a of ways) for (const e of new Set([a.dataset.from, a.dataset.to])) rows[places.get(e)].ways.push(a);\n\
const tagOf = (m) => (/^(?:sent|got|out) .*?'([^']*)'/.exec(m.title) || ['', ''])[1];\n\
const wordOf = (m) => tagOf(m) || m.title.split(' ').slice(2).join(' ');\n\
// what each row changes: process, number of the thing, its name, its value, and the row\n\
const has = whole.indexOf('<li data-p=', t0) > 0, changed = [];\n\
const changesAt = (k) => (changed[k] ??= [...rows[k].text.matchAll(/<li data-p='(\\d+)' data-n='(\\d+)'>P \\d+ <b>([^<]*)<\\/b> <code>([^<]*)</g)].map((m) => ({ p: m[1], n: Number(m[2]), k: plain(m[3]), v: plain(m[4]), i: k })));\n\
const w0 = diagram.viewBox.baseVal.width, h0 = diagram.viewBox.baseVal.height;\n\
let at = 0;\n\
\n\
// WHAT IS MADE LATER: bit by bit when the page is open, and at once for print and for a search\n\
const later = [];\n\
const finish = () => { while (later.length) later.shift()(); };\n\
const idle = window.requestIdleCallback ?? ((go) => setTimeout(() => go({ timeRemaining: () => 0 })));\n\
const goOn = (left) => { do later.shift()?.(); while (later.length && left.timeRemaining() > 8); if (later.length) idle(goOn); };\n\
addEventListener('load', () => idle(goOn));\n\
addEventListener('beforeprint', finish);\n\
\n\
// THE TABLE in parts of a hundred rows, each with its headings, of which a browser lays out those near what is in sight\n\
const tables = [], table0 = one('.all table');\n\
for (let k = 0; k < rows.length; k += 100) tables.push({ rows: rows.slice(k, k + 100), div: k > 0 ? make('div', { class: 'all' }) : one('.all') });\n\
const fill = (part) => {\n\
if (part.isMade) return;\n\
part.isMade = true;\n\
const some = part.rows, body = part === tables[0] ? table0.tBodies[0] : make('tbody', { class: 'events' });\n\
body.innerHTML = some.map((r) => r.text).join('');\n\
some.forEach((r, n) => { r.tr = body.children[n]; });\n\
rows[at].tr?.classList.add('open');\n\
if (part === tables[0]) return;\n\
const table = make('table', { class: table0.className, 'aria-label': 'Events from ' + some[0].id + ' to ' + some.at(-1).id });\n\
table.append(table0.tHead.cloneNode(true), body);\n\
part.div.append(table);\n\
};\n\
if (tables.length < 2) fill(tables[0]);\n\
const sight = new IntersectionObserver((seen) => { for (const s of seen) if (s.isIntersecting) fill(tables.find((t) => t.div === s.target)); }, { rootMargin: '50%' });\n\
tables.forEach((t, n) => { if (n > 0) tables[n - 1].div.after(t.div); sight.observe(t.div); });\n\
\n\
// THE TOOLS\n\
const tools = make('nav', { class: 'tools', 'aria-label': 'Steps of the run' });\n\
const group = (...things) => { const g = make('span', { class: 'group' }); g.append(...things); tools.append(g); };\n\
const button = (text, label, go) => { const b = make('button', { type: 'button', title: label, 'aria-label': label }, text); b.onclick = go; return b; };\n\
const choice = (label, first, others) => {\n\
const s = make('select', { 'aria-label': label });\n\
s.append(make('option', { value: '' }, first));\n\
others.forEach(([value, text]) => s.append(make('option', { value }, text)));\n\
return s;\n\
};\n\
const named = (text, what) => { const l = make('label', {}, text); l.append(what); return l; };\n\
const slider = make('input', { type: 'range', min: 0, max: rows.length - 1, value: 0, 'aria-label': 'Event' });\n\
const who = choice('Process', 'all processes', names.map((n, k) => [String(k + 1), n]));\n\
const tag = choice('Messages and outputs of a tag', 'all tags', []);\n\
later.push(() => { for (const t of [...new Set(marks.map(tagOf))].filter((t) => t).sort()) tag.append(make('option', { value: t }, t)); });\n\
const zoom = make('input', { type: 'range', min: 20, max: 200, value: 100, step: 5, 'aria-label': 'Zoom' });\n\
const outs = marks.filter((m) => m.kind === 'out');\n\
const outWords = [...new Set(outs.map(wordOf))].slice(0, 50);\n\
const inSel = choice('Bars from this output', 'none', outWords.map((t) => [t, t]));\n\
const outSel = choice('Bars to this output', 'the end', outWords.map((t) => [t, t]));\n\
group(button('\\u00ab first', 'First event (Home)', () => open(0)), button('\\u2039 back', 'Event before (left arrow)', () => open(at - 1)),\n\
button('next \\u203a', 'Next event (right arrow)', () => open(at + 1)), button('last \\u00bb', 'Last event (End)', () => open(rows.length - 1)));\n\
if (outs.length) group(button('\\u2039 output', 'Output before (Shift and o)', () => output(-1)), button('output \\u203a', 'Next output (o)', () => output(1)));\n\
if (rows.some((r) => r.isMarked)) group(button('\\u2039 marked', 'Marked event before (Shift and m)', () => marked(-1)), button('marked \\u203a', 'Next marked event (m)', () => marked(1)));\n\
tools.append(slider);\n\
group(who, tag);\n\
group(named('zoom', zoom));\n\
if (outs.length) group(named('bars from', inSel), named('to', outSel));\n\
const strip = make('svg', { class: 'strip', preserveAspectRatio: 'none', 'aria-hidden': 'true' });\n\
const told = make('p', { class: 'told', role: 'status' });\n\
tools.append(strip, told);\n\
one('.run').before(tools);\n\
\n\
// THE STATES\n\
const side = one('.side'), panel = make('section', { class: 'state', 'aria-label': 'State after the event' });\n\
if (has) side.prepend(panel);\n\
const stateAt = (k) => {\n\
const state = new Map();\n\
for (let i = 0; i <= k; i += 1) for (const c of changesAt(i)) {\n\
if (!state.has(c.p)) state.set(c.p, new Map());\n\
state.get(c.p).set(c.n, c);\n\
}\n\
return state;\n\
};\n\
// the process of an event, by its number\n\
const processOf = (k) => { const c = rows[k].marks[0]?.column; return c ? names[c - 1].split(' ').pop() : ''; };\n\
const tell = (k) => {\n\
const state = stateAt(k), table = make('table'), own = processOf(k);\n\
table.append(make('caption', {}, k > 0 ? 'State after event ' + rows[k].id + '; what it changed is set off' : 'State at the opening'));\n\
for (const [p, things] of [...state].sort((a, b) => a[0] - b[0])) {\n\
if (who.value && who.value !== p) continue;\n\
const head = make('tr'), body = make('tbody', p === own ? { class: 'own' } : {});\n\
head.append(make('th', { colspan: 2, scope: 'rowgroup' }, names[p - 1] || 'P ' + p));\n\
body.append(head);\n\
for (const [, c] of [...things].sort((a, b) => a[0] - b[0])) {\n\
const fresh = c.i === k && k > 0;\n\
if (c.v === '' && !fresh) continue;\n\
const tr = make('tr', c.k[0] === '#' ? { class: 'soft' } : {});\n\
tr.append(make('th', { scope: 'row' }, c.k), make('td', fresh ? { class: 'new' } : {}, c.v || 'nothing'));\n\
body.append(tr);\n\
}\n\
table.append(body);\n\
}\n\
panel.replaceChildren(table);\n\
// what has changed in the process of the event comes into sight\n\
const seen = one('.state .own .new') || one('.state .own th') || one('.state .new');\n\
panel.scrollTop = seen ? Math.max(seen.closest('tbody').offsetTop, seen.offsetTop + seen.offsetHeight - panel.clientHeight) : 0;\n\
};\n\
// the lines where the process of the event waited before it and waits after it\n\
const light = (k) => {\n\
for (const l of lines) l.classList.remove('lit', 'was');\n\
const p = processOf(k);\n\
if (!p) return;\n\
const lineAt = (k) => { for (let i = k; i >= 0; i -= 1) { const c = changesAt(i).find((c) => c.p === p && c.n === 1); if (c) return lines[Number(c.v) - 1]; } };\n\
const was = k > 0 && lineAt(k - 1), now = lineAt(k);\n\
if (was) was.classList.add('was');\n\
if (now) now.classList.add('lit');\n\
const l = now || was, box = one('.prog');\n\
if (l) box.scrollTop += l.getBoundingClientRect().top - box.getBoundingClientRect().top - box.clientHeight / 2;\n\
};\n\
\n\
// WHAT IS DRAWN ON A SCREEN: the picture in parts of fifty rows, of which those near what is in sight, and the arrows that begin, end or pass there\n\
const parts = [];\n\
for (let k = 0; k < rows.length; k += 50) parts.push({ rows: rows.slice(k, k + 50), under: make('svg'), over: make('svg') });\n\
for (const p of parts) { one('.diagram > g').append(p.under); one('.marks').append(p.over); }\n\
// of rows that are low only some keep their words\n\
let size = 1;\n\
const word = (r) => {\n\
const t = r.at?.querySelector('text'), most = Math.ceil(14 / (18 * size));\n\
if (!t) return;\n\
t.classList.toggle('few', most > 1 && r.k % most > 0); t.textContent = size < 0.7 ? r.id : r.id + ' ' + r.words;\n\
};\n\
const hide = (m) => m.at?.classList.toggle('hid', Boolean((who.value && m.column !== Number(who.value)) || (tag.value && tagOf(m) !== tag.value)));\n\
const draw = (part) => {\n\
if (part.isMade) return;\n\
part.isMade = true;\n\
const some = part.rows.flatMap((r) => r.marks);\n\
part.under.innerHTML = part.rows.map((r) => r.band.text).join('');\n\
part.over.innerHTML = some.map((m) => m.text).join('');\n\
part.rows.forEach((r, n) => { r.at = part.under.children[n]; if (size !== 1) word(r); });\n\
some.forEach((m, n) => { m.at = part.over.children[n]; if (who.value || tag.value) hide(m); });\n\
rows[at].at?.classList.add('open');\n\
};\n\
const scale = () => Number(diagram.getAttribute('height')) / h0;\n\
const spans = ways.map((a) => [a.dataset.from, a.dataset.to].map((e) => places.get(e)).sort((x, y) => x - y).map((k) => rows[k].band));\n\
const show = () => {\n\
const z = scale(), above = (picture.scrollTop - 300) / z, below = (picture.scrollTop + picture.clientHeight + 300) / z;\n\
const isNear = (first, last) => first.top < below && last.top + last.high > above;\n\
for (const p of parts) {\n\
const is = isNear(p.rows[0].band, p.rows.at(-1).band);\n\
if (is) draw(p);\n\
for (const g of [p.under, p.over]) g.classList.toggle('near', is);\n\
}\n\
ways.forEach((a, n) => a.classList.toggle('near', isNear(...spans[n])));\n\
};\n\
addEventListener('resize', show);\n\
\n\
// OPENING AN EVENT\n\
const look = (k) => {\n\
const p = picture.getBoundingClientRect(), top = p.top + 40, end = Math.min(p.bottom, innerHeight) - 30, high = rows[k].band.high * scale();\n\
const y = diagram.getBoundingClientRect().top + rows[k].band.top * scale();\n\
if (y < top || y + high > end) picture.scrollTop += y - Math.max(top, (top + end - high) / 2);\n\
show();\n\
const m = rows[k].marks.find((m) => m.column > 0);\n\
if (!m) return;\n\
const x = m.x * Number(diagram.getAttribute('width')) / w0, wide = picture.clientWidth;\n\
if (x < picture.scrollLeft + 160 || x > picture.scrollLeft + wide - 60) picture.scrollLeft = x - wide / 2;\n\
};\n\
const mark = (r, is) => { for (const g of [r.tr, r.at]) g?.classList.toggle('open', is); for (const a of r.ways) a.classList.toggle('lit', is); };\n\
const open = (k, quiet) => {\n\
k = Math.max(0, Math.min(rows.length - 1, k));\n\
const now = rows[k];\n\
mark(rows[at], false);\n\
at = k;\n\
mark(now, true);\n\
slider.value = k; slider.setAttribute('aria-valuetext', 'event ' + now.id);\n\
const acts = now.marks.map((m) => m.title), did = acts.slice(0, 4).join('; ') + (acts.length > 4 ? '; and ' + (acts.length - 4) + ' more' : '');\n\
told.textContent = now.id + (now.words ? ' ' + now.words : '') + (did ? ': ' + did : '');\n\
told.classList.toggle('marked', now.isMarked);\n\
cursor.setAttribute('x', now.band.top); cursor.setAttribute('width', now.band.high);\n\
look(k);\n\
if (has) { tell(k); light(k); }\n\
if (!quiet && location.hash.slice(1) !== now.id) history.replaceState(null, '', '#' + now.id);\n\
};\n\
const step = (list, way) => { const k = way > 0 ? list.find((x) => x > at) : list.filter((x) => x < at).pop(); if (k !== undefined) open(k); };\n\
const output = (way) => step(outs.filter((m) => !who.value || m.column === Number(who.value)).map((m) => m.k), way);\n\
const marked = (way) => step(rows.filter((r) => r.isMarked).map((r) => r.k), way);\n\
slider.oninput = () => open(Number(slider.value));\n\
const byHash = () => { const k = places.get(location.hash.slice(1)); if (k !== undefined) { open(k, true); scrollTo(0, 0); } };\n\
addEventListener('hashchange', byHash);\n\
addEventListener('keydown', (e) => {\n\
if (e.key === 'F3' || ((e.ctrlKey || e.metaKey) && e.key === 'f')) finish();\n\
if (e.ctrlKey || e.altKey || e.metaKey || /^(INPUT|SELECT|TEXTAREA)$/.test(e.target.tagName)) return;\n\
const go = { ArrowRight: () => open(at + 1), ArrowLeft: () => open(at - 1), Home: () => open(0), End: () => open(rows.length - 1), o: () => output(1), O: () => output(-1), m: () => marked(1), M: () => marked(-1) }[e.key];\n\
if (go) { e.preventDefault(); go(); }\n\
});\n\
// a click opens the event of a mark, of an arrow that is near, or of the row\n\
const near = [[0, 0], [0, 4], [0, -4], [4, 0], [-4, 0]];\n\
diagram.addEventListener('click', (e) => {\n\
e.preventDefault();\n\
const hit = () => { for (const [x, y] of near) { const g = document.elementFromPoint(e.clientX + x, e.clientY + y)?.closest('[data-e],[data-to]'); if (g) return g; } return null; };\n\
const g = hit() || e.target.closest('.band');\n\
const k = g && places.get(g.dataset.e || g.dataset.to || g.id.slice(1));\n\
if (k !== undefined && k !== null) open(k);\n\
});\n\
\n\
// WHAT IS SHOWN\n\
// of an event, the tag of what it got, and of the first message that it sent\n\
const tagAt = new Map();\n\
later.push(() => { for (const m of marks) { const k = m.kind + rows[m.k].id; if (!tagAt.has(k)) tagAt.set(k, tagOf(m)); } });\n\
const sift = () => {\n\
marks.forEach(hide);\n\
for (const a of ways) a.classList.toggle('hid', Boolean((who.value && !a.classList.contains('c' + who.value)) || (tag.value && (tagAt.get('got' + a.dataset.to) || tagAt.get('sent' + a.dataset.from)) !== tag.value)));\n\
if (has) tell(at);\n\
};\n\
who.onchange = sift; tag.onchange = sift;\n\
const heads = one('.names');\n\
zoom.oninput = () => {\n\
size = Number(zoom.value) / 100;\n\
diagram.setAttribute('width', w0 * size); diagram.setAttribute('height', h0 * size);\n\
heads.setAttribute('width', w0 * size); heads.setAttribute('height', 24);\n\
heads.setAttribute('viewBox', '0 0 ' + w0 + ' ' + 24 / size);\n\
diagram.style.setProperty('--z', 1 / size); heads.style.setProperty('--z', 1 / size);\n\
diagram.classList.toggle('small', size < 0.7);\n\
all('text', heads).forEach((t, n) => { t.textContent = size < 0.5 ? names[n].split(' ').pop() : names[n]; });\n\
rows.forEach(word);\n\
look(at);\n\
};\n\
// the words of rows stay in sight\n\
picture.addEventListener('scroll', () => { show(); diagram.style.setProperty('--x', picture.scrollLeft * w0 / Number(diagram.getAttribute('width')) + 'px'); });\n\
\n\
// THE STRIP OF THE WHOLE RUN, AND INTERVALS AS BARS\n\
strip.setAttribute('viewBox', '0 0 ' + h0 + ' ' + (names.length + 1));\n\
const colours = { out: 'good', fault: 'bad', lost: 'bad', took: 'move', end: 'ink', answer: 'query', kept: 'query' };\n\
const cursor = make('rect', { class: 'cursor', y: 0, height: names.length + 1 }), pieces = {};\n\
strip.append(cursor);\n\
later.push(() => {\n\
for (const m of marks) {\n\
const isBig = m.kind === 'out' || m.kind === 'fault', high = isBig ? 0.8 : 0.4;\n\
if (m.kind !== 'stop') (pieces[colours[m.kind] || 'message'] ??= []).push('M' + (m.y - 9) + ' ' + (m.column - high / 2 - 0.5) + 'h18v' + high + 'h-18z');\n\
}\n\
for (const colour in pieces) strip.append(make('path', { d: pieces[colour].join(''), style: 'fill:var(--' + colour + ')' }));\n\
for (const r of rows) if (r.isMarked) strip.append(make('rect', { class: 'spot', x: r.band.top, y: 0, width: r.band.high, height: names.length + 1 }));\n\
});\n\
strip.addEventListener('click', (e) => { const r = strip.getBoundingClientRect(), y = ((e.clientX - r.left) / r.width) * h0; open(rows.findLastIndex((r) => r.band.top <= y)); });\n\
const bars = () => {\n\
for (const b of all('.bar')) b.remove();\n\
if (!inSel.value) return;\n\
const began = new Map(), end = h0 - 8, lives = one('.lives');\n\
const bar = (b, to) => lives.append(make('rect', { class: 'bar', x: b.x - 10, y: b.y, width: 20, height: Math.max(4, to - b.y), rx: 4 }));\n\
for (const m of outs) {\n\
const c = m.column, t = wordOf(m);\n\
if (began.has(c) && outSel.value && t === outSel.value) { bar(began.get(c), m.y); began.delete(c); }\n\
if (t === inSel.value && !began.has(c)) began.set(c, m);\n\
}\n\
for (const b of began.values()) bar(b, end);\n\
};\n\
// which outputs to begin with: two that each process puts out in turns, or that of an overlap\n\
const pair = () => {\n\
const overlap = /^\\s*overlap: out \\d+ .*?'([^']*)'/.exec(one('.remark')?.textContent || '');\n\
const begin = overlap ? overlap[1] : outWords[0], turns = new Map();\n\
const others = outWords.filter((t) => t !== begin);\n\
const each = outs.every((m) => { const n = turns.get(m.column) || 0; turns.set(m.column, n + 1); return (wordOf(m) === begin) === (n % 2 === 0); });\n\
return each && others.length === 1 && begin ? [begin, others[0]] : overlap ? [begin, others.length === 1 ? others[0] : ''] : ['', ''];\n\
};\n\
[inSel.value, outSel.value] = pair();\n\
inSel.onchange = bars; outSel.onchange = bars;\n\
bars();\n\
const remark = one('.remark');\n\
if (remark) document.title = 'A run:' + remark.textContent;\n\
for (const t of tables) later.push(() => fill(t));\n\
for (const p of parts) later.push(() => draw(p));\n\
const asked = places.get(location.hash.slice(1));\n\
open(asked ?? 0, true);\n\
if (asked !== undefined) addEventListener('load', () => setTimeout(byHash));\n\
})();\n\
</script>\n\
</body>\n\
</html>\n";
