//! The colours of a picture. It has a light ground of its own, so that it can be read on a dark page too.

use crate::life::Life;

/// The classes of the threads by their numbers. There are eight colours, and each further eight threads have borders of
/// another kind.
const LOOKS: &[&str] = &[
    "t0", "t1", "t2", "t3", "t4", "t5", "t6", "t7", "t0 g1", "t1 g1", "t2 g1", "t3 g1", "t4 g1",
    "t5 g1", "t6 g1", "t7 g1", "t0 g2", "t1 g2", "t2 g2", "t3 g2", "t4 g2", "t5 g2", "t6 g2",
    "t7 g2", "t0 g3", "t1 g3", "t2 g3", "t3 g3", "t4 g3", "t5 g3", "t6 g3", "t7 g3", "t0 g4",
];

/// Returns the class of the thread.
pub fn thread_class(thread: u32) -> &'static str {
    match LOOKS.get(thread as usize) {
        Some(look) => *look,
        None => "t0",
    }
}

/// Returns the class of a band of an object in this state, whose owner is the thread.
pub fn life_class(life: Life, owner: u32) -> &'static str {
    match life {
        Life::Alive => thread_class(owner),
        Life::Unborn => "unborn",
        Life::Queued => "queued",
        Life::Merged => "merged",
        Life::Dying => "dying",
        Life::Closed => "closed",
    }
}

/// The style sheet (CSS 2.1), and the head of an arrow.
pub const STYLE: &str = "<style>
text{font:11px ui-monospace,'DejaVu Sans Mono',Menlo,Consolas,monospace;fill:#222}
.ground{fill:#fcfcfa;stroke:#ccc}
.head{font-size:13px;font-weight:bold}
.part{font-weight:bold}
.number{text-anchor:end;fill:#777}
.outcome{fill:#8a2a6b}
.small{font-size:10px}
.row{font-size:10px;font-weight:bold}
.guide{fill:none;stroke-dasharray:1 3}
.moves{fill:none;stroke:#b25a00;stroke-width:1.6}
.moved{font-size:9px;font-weight:bold;fill:#b25a00}
.end{text-anchor:end}
.tiny{font-size:6px}
.wrong{fill:#c01818;stroke:#7a0000}
.frame{fill:none;stroke:#c01818;stroke-width:2.5}
.bad{fill:#c01818}
.again{fill:#777}
.pale{fill:#fff}
.t0{stroke:#3f6fa8}rect.t0{fill:#dbe7f5}text.t0{fill:#3f6fa8;stroke:none}
.t1{stroke:#2f8f5b}rect.t1{fill:#d8efe0}text.t1{fill:#2f8f5b;stroke:none}
.t2{stroke:#0f8ea3}rect.t2{fill:#d3eef2}text.t2{fill:#0f8ea3;stroke:none}
.t3{stroke:#8a7a1f}rect.t3{fill:#efead0}text.t3{fill:#8a7a1f;stroke:none}
.t4{stroke:#a8558c}rect.t4{fill:#f3dcec}text.t4{fill:#a8558c;stroke:none}
.t5{stroke:#7a5c3e}rect.t5{fill:#eadfd3}text.t5{fill:#7a5c3e;stroke:none}
.t6{stroke:#5566c4}rect.t6{fill:#dfe2f7}text.t6{fill:#5566c4;stroke:none}
.t7{stroke:#55803a}rect.t7{fill:#e1eed8}text.t7{fill:#55803a;stroke:none}
rect.g1{stroke-width:2.6}
rect.g2{stroke-width:2.6;stroke-dasharray:12 3}
rect.g3{stroke-width:2.6;stroke-dasharray:3 3}
rect.g4{stroke-width:2.6;stroke-dasharray:12 3 3 3}
rect.gap{fill-opacity:.35;stroke-width:1;stroke-dasharray:3 3}
.unborn{fill:none;stroke:#aaa;stroke-dasharray:2 2}
.queued{fill:#ffd24d}
.merged{fill:#c9b6ea}
.dying{fill:#f0876b}
.closed{fill:#444}
</style>
<defs><marker id=\"tip\" viewBox=\"0 0 8 8\" refX=\"7\" refY=\"4\" markerWidth=\"5\" markerHeight=\"5\" \
orient=\"auto\"><path d=\"M0 0L8 4L0 8Z\" fill=\"#b25a00\"/></marker></defs>
";
