//! The beginning of a page, and the key of its picture.

/// The head of a page with its style, and its body up to the remarks.
pub(crate) const HEAD: &[u8] = b"\
<!DOCTYPE html>\n\
<html lang='en'>\n\
<head>\n\
<meta charset='utf-8'>\n\
<meta name='viewport' content='width=device-width, initial-scale=1'>\n\
<meta http-equiv='Content-Security-Policy' content=\"default-src 'none'; script-src 'unsafe-inline'; style-src 'unsafe-inline'\">\n\
<title>A run</title>\n\
<style>\n\
:root{color-scheme:light dark;--page:#fff;--ink:#1a1a1a;--soft:#555;--line:#8a8a8a;--faint:#dcdcdc;--band:#f5f6f8;--lit:#ffe9a8;--was:#fff6d6;--message:#0072b2;--bad:#b83c00;--good:#00704f;--move:#9a6700;--query:#a0468a}\n\
@media (prefers-color-scheme:dark){:root{--page:#15171c;--ink:#ececec;--soft:#b4b4b4;--line:#7c7c7c;--faint:#3a3d44;--band:#1d2027;--lit:#4d3c0e;--was:#332a10;--message:#56b4e9;--bad:#ff8a3d;--good:#3ecf9b;--move:#f0b429;--query:#dd9cc2}}\n\
*{box-sizing:border-box}\n\
body{margin:0 1rem 3rem;background:var(--page);color:var(--ink);font:15px/1.45 system-ui,sans-serif}\n\
h1{font-size:1.3rem;margin:.6rem 0 .1rem}\n\
h2{font-size:1.05rem;margin:.8rem 0 .3rem}\n\
p{margin:.2rem 0;color:var(--soft)}\n\
.remark{color:var(--bad);font-weight:700;font-size:1.1rem}\n\
.key{display:flex;flex-wrap:wrap;gap:.1rem 1.1rem;margin:.3rem 0;padding:0;list-style:none;font-size:.87rem}\n\
.key svg{vertical-align:middle;margin-right:.35rem}\n\
.tools{position:sticky;top:0;z-index:3;background:var(--page);border-bottom:1px solid var(--line);padding:.3rem 0;display:flex;flex-wrap:wrap;gap:.3rem .8rem;align-items:center}\n\
.tools button,.tools select,.tools input{font:inherit;font-size:.93rem;color:inherit;background:var(--band);border:1px solid var(--line);border-radius:4px;padding:.12rem .55rem}\n\
.tools button:hover{background:var(--lit)}\n\
.tools select{max-width:11rem}\n\
.tools input[type=range]{flex:1 1 8rem;padding:0;accent-color:var(--message)}\n\
.tools label input[type=range]{flex:none;width:7rem}\n\
.tools label,.group{display:inline-flex;gap:.3rem;align-items:center}\n\
.strip{flex:1 0 100%;height:40px;width:100%;border:1px solid var(--faint);cursor:pointer}\n\
.cursor{fill:var(--lit);stroke:var(--ink);stroke-width:1;vector-effect:non-scaling-stroke}\n\
.spot{fill:var(--bad);opacity:.35}\n\
.told{flex:1 0 100%;min-height:1.45em;margin:0;color:var(--ink);font:14px/1.4 ui-monospace,monospace;overflow-wrap:anywhere}\n\
.told.marked{color:var(--bad);font-weight:700}\n\
.run{display:flex;gap:1rem;align-items:flex-start}\n\
.picture{contain:layout paint style;overflow:auto;flex:0 1 auto;min-width:0;max-height:calc(100vh - 10.5rem);border:1px solid var(--faint)}\n\
svg.names{display:block;position:sticky;top:0;z-index:1;background:var(--page);box-shadow:0 1px var(--faint)}\n\
.side{flex:1 0 30rem;max-width:56rem;position:sticky;top:9.5rem;max-height:calc(100vh - 10.5rem);display:flex;flex-direction:column;gap:.3rem}\n\
.state{position:relative;overflow:auto;flex:1 1 50%;border:1px solid var(--faint)}\n\
.side h2{margin:.2rem 0 0}\n\
.prog{overflow:auto;flex:1 1 50%;border:1px solid var(--faint)}\n\
svg.diagram{display:block}\n\
svg text{font-size:12px;fill:var(--ink);paint-order:stroke;stroke:var(--page);stroke-width:4px;stroke-linejoin:round}\n\
svg .name{font-size:calc(13px*var(--z,1));font-weight:700;text-anchor:middle;transform:translateY(calc(17px*(var(--z,1) - 1)))}\n\
.band rect{fill:transparent}\n\
.band:nth-of-type(even) rect{fill:var(--band)}\n\
svg .band text{fill:var(--soft);font-size:calc(12px*var(--z,1));transform:translateX(var(--x,0))}\n\
.band.marked rect{stroke:var(--bad);stroke-width:2}\n\
svg .band.marked text{fill:var(--bad);font-weight:700}\n\
.band.open rect{fill:var(--lit)}\n\
.band text.few{display:none}\n\
.life,.past,.arrow,.broken,.stub,.across{fill:none;stroke-width:1.5}\n\
.life{stroke:var(--line)}\n\
.past{stroke:var(--page);stroke-dasharray:3 5;stroke-width:3}\n\
.arrow{stroke:var(--message);marker-end:url(#head)}\n\
.stub{stroke:var(--message);stroke-dasharray:2 3}\n\
.broken{stroke:var(--bad);stroke-width:2;stroke-dasharray:6 4}\n\
.across{stroke:var(--bad);stroke-width:2;stroke-dasharray:10 4 2 4}\n\
.bar{fill:var(--good);opacity:.3}\n\
#head path,.sent>path,.got>path{fill:var(--message)}\n\
.took>path{fill:var(--page);stroke:var(--move);stroke-width:2.5}\n\
.lost>path,.fault>path{stroke:var(--bad);stroke-width:3;fill:var(--page)}\n\
.again>path{stroke:var(--message);stroke-width:2;fill:var(--page)}\n\
.out>path{fill:var(--good)}\n\
.end>path{fill:var(--ink)}\n\
.answer>path,.kept>path{fill:var(--page);stroke:var(--query);stroke-width:2}\n\
svg .took text,svg .end text,svg .got text,svg .kept text{fill:var(--soft)}\n\
svg .out text{font-weight:700;fill:var(--good)}\n\
svg .fault text,svg .stop text{font-weight:700;fill:var(--bad)}\n\
.hid{opacity:.12}\n\
.small .marks text{display:none}\n\
@media screen{.on .diagram svg:not(.near),.on .arrows>path:not(.near){display:none}}\n\
a{color:inherit;cursor:pointer;text-decoration:none}\n\
a:hover text{text-decoration:underline}\n\
.marks g,.arrows>path{cursor:pointer}\n\
.lit.arrow,.lit.broken,.lit.stub,.arrows>path:hover{stroke-width:3.5}\n\
.prog{margin:0;padding:.2rem 0 .2rem 3rem;font:13px/1.5 ui-monospace,monospace}\n\
.prog li{white-space:pre-wrap;overflow-wrap:anywhere;padding-left:.3rem}\n\
.prog li::marker{color:var(--soft)}\n\
.prog li.was{background:var(--was)}\n\
.prog li.lit{background:var(--lit);font-weight:700}\n\
.all{content-visibility:auto;contain-intrinsic-size:auto 40rem}\n\
.all+.all{contain-intrinsic-size:auto 160rem}\n\
.all:empty{height:160rem}\n\
table{border-collapse:collapse;width:100%}\n\
.all table{table-layout:fixed}\n\
.all th:first-child{width:7%}\n\
.all th:nth-child(2){width:15%}\n\
.all th:nth-child(3){width:33%}\n\
.all table.trace th:nth-child(3){width:auto}\n\
table.trace td:nth-child(2),table.trace th:nth-child(2){display:none}\n\
caption{text-align:left;color:var(--soft);padding:.1rem .3rem}\n\
th,td{border:1px solid var(--faint);padding:.12rem .4rem;text-align:left;vertical-align:top;font:13px/1.4 ui-monospace,monospace;overflow-wrap:anywhere}\n\
th[scope=row]{font-weight:400;color:var(--soft);white-space:nowrap}\n\
thead th,th[scope=rowgroup]{background:var(--band);font-weight:700}\n\
tr.marked th{color:var(--bad);font-weight:700}\n\
html:not(.on) tr:target,tr.open{background:var(--lit)}\n\
td ul{margin:0;padding:0;list-style:none}\n\
td b{font-weight:700}\n\
.state .soft td{color:var(--soft)}\n\
.state td.new{background:var(--lit);font-weight:700}\n\
:focus-visible{outline:2px solid var(--message);outline-offset:1px}\n\
@media (max-width:60rem){.tools{position:static}.run{display:block}.side{position:static;max-width:none;max-height:none}.prog,.state{max-height:60vh}}\n\
@page{size:A4;margin:12mm}\n\
@media print{:root{--page:#fff;--ink:#000;--soft:#444;--line:#777;--faint:#ccc;--band:#f2f2f2;--lit:#eee;--was:#eee;--message:#0072b2;--bad:#b83c00;--good:#00704f;--move:#9a6700;--query:#a0468a}*{print-color-adjust:exact;-webkit-print-color-adjust:exact}body{margin:0;font-size:11px}.tools,.state{display:none}.run{display:block}.picture{overflow:visible;max-height:none;border:0}svg.names{position:static;max-width:100%}svg.diagram{max-width:100%;height:auto}.side{position:static;display:block;max-width:none;max-height:none}.prog{overflow:visible;border:0;font-size:10px}.prog li.lit,.prog li.was,tr.open,.band.open rect{background:none;font-weight:400}.all{content-visibility:visible}th,td{font-size:10px}tr{break-inside:avoid}thead{display:table-header-group}}\n\
</style>\n\
</head>\n\
<body>\n\
<svg width='0' height='0' style='position:absolute' aria-hidden='true'>\n\
<defs>\n\
<marker id='head' viewBox='0 0 10 10' refX='15' refY='5' markerUnits='userSpaceOnUse' markerWidth='10' markerHeight='10' orient='auto'><path d='M0 0L10 5L0 10z'/></marker>\n\
</defs>\n\
</svg>\n\
<h1>A run</h1>\n";

/// What stands between the number of processes and the width of their names: the key, and the frame of the picture. Its script has
/// a browser keep the picture and the table as text, for the script at the end; should that fail, they are read after all.
pub(crate) const LEGEND: &[u8] = b"\
. Time runs downwards.</p>\n\
<ul class='key'>\n\
<li><svg width='16' height='16' class='took' aria-hidden='true'><path d='M8 8m-5 0a5 5 0 1 0 10 0a5 5 0 1 0-10 0'/></svg>a process moved</li>\n\
<li><svg width='46' height='16' aria-hidden='true'><path class='arrow' d='M3 8L46 8'/><circle cx='4' cy='8' r='3.5' fill='var(--message)'/></svg>a message, from sent to received</li>\n\
<li><svg width='40' height='16' class='lost' aria-hidden='true'><path class='broken' d='M2 8L32 8'/><path d='M32 8m-5-5l10 10m-10 0l10-10'/></svg>lost</li>\n\
<li><svg width='16' height='18' class='again' aria-hidden='true'><path d='M8 11m-6-4h8v8h-8zm4-4h8v8h-8z'/></svg>doubled</li>\n\
<li><svg width='26' height='16' aria-hidden='true'><path class='stub' d='M2 8L26 8'/></svg>still under way</li>\n\
<li><svg width='16' height='16' class='out' aria-hidden='true'><path d='M8 8m0-7l7 7l-7 7l-7-7z'/></svg>output</li>\n\
<li><svg width='20' height='16' class='end' aria-hidden='true'><path d='M10 8m-9-2h18v4h-18z'/></svg>ended</li>\n\
<li><svg width='18' height='18' class='fault' aria-hidden='true'><path d='M9 9m-7-7h14v14h-14zl14 14m-14 0l14-14'/></svg>fault</li>\n\
<li><svg width='16' height='16' class='answer' aria-hidden='true'><path d='M8 8m-5-5h10v10h-10z'/></svg>answer of a query</li>\n\
<li><svg width='16' height='16' class='kept' aria-hidden='true'><path d='M8 9m0-6l6 11h-12z'/></svg>rows kept</li>\n\
</ul>\n\
<script>document.write('<noscript>'); addEventListener('error', function () { var kept = document.querySelector('noscript'); if (kept) kept.outerHTML = kept.textContent; });</script>\n\
<div class='run'>\n\
<div class='picture' tabindex='0'>\n\
<svg class='names' height='24' width='";
