//! The style sheet of pages.

/// What each look looks like. On paper and on a screen without colours looks differ by strokes, frames and fonts.
pub const STYLE: &[u8] =
    b"body{font:14px/1.45 sans-serif;margin:16px auto;max-width:800px;color:#222;background:#fff}
h1{font-size:19px;margin:0 0 4px}
h2{font-size:16px;margin:18px 0 4px}
h3{font-size:14px;margin:10px 0 2px}
p{margin:3px 0}
ul{margin:2px 0;padding-left:20px}
svg{display:block;max-width:100%;height:auto}
text{font:12px sans-serif;fill:#222}
div{display:flex;flex-wrap:wrap;gap:6px 22px}
table{border-collapse:collapse;font:12px monospace}
caption{text-align:left;font:bold 12px sans-serif;white-space:nowrap}
td,th{border:1px solid #999;padding:2px 7px;text-align:left}
th{background:#eee}
td.differs{background:#fff1a8;font-weight:bold;border:2px solid #222}
line{stroke:#222;stroke-width:1.4}
line.lane{stroke:#bbb;stroke-width:3}
line.thin-lane{stroke:#bbb;stroke-width:1}
line.late-lane{stroke:#bbb;stroke-width:3;stroke-dasharray:2 5}
line.again{stroke:#888;stroke-width:1}
line.lost{stroke:#b3261e;stroke-dasharray:5 4}
line.held{stroke:#8a5300;stroke-dasharray:9 3}
line.back{stroke:#888;stroke-width:1;stroke-dasharray:1 4}
line.fetched{stroke:#0b57a4;stroke-width:3}
line.down{stroke:#b3261e;stroke-width:2;stroke-dasharray:2 5}
line.up{stroke:#1a6b2f;stroke-width:2;stroke-dasharray:2 5}
rect{fill:#fff;stroke:#222;stroke-width:1}
rect.lane{fill:#f0f0f0;stroke:none}
.strong rect{fill:#222}
.strong text{fill:#fff;font-weight:bold}
.good rect{fill:#dff3e2;stroke:#1a6b2f}
.bad rect{fill:#b3261e;stroke:#b3261e}
.bad text{fill:#fff;font-weight:bold}
.mended rect{stroke:#1a6b2f;stroke-width:2.5}
.gone rect{stroke:#888;stroke-dasharray:5 3}
.gone text{fill:#555}
.waiting rect{stroke:#8a5300;stroke-dasharray:1.5 2.5}
text.faint{font-size:10px;fill:#777}
text.script{font:11px monospace}
text.note{font:italic 11px sans-serif;fill:#555}
text.name{font:bold 15px sans-serif}
text.lost,text.refused,p.refused{font-weight:bold;fill:#b3261e;color:#b3261e}
text.held{font-weight:bold;fill:#8a5300}
text.back{font-size:10px;fill:#666}
";
