// What a tick reports, in report order: tick.rs's `ticked` and `halts`, into lent slices. `None` says that an output is too short; nothing is written then.
#![tactic(auto)]

ghost use Rattle.std.specs.Prelude.{◌≡◌, ◌≤◌, length, map, get_or};
ghost use Rattle.std.proofs.lemmas.List.Edits.{sets};
ghost use Rattle.tick_report.specs.Report.{nodes_of, listed, ticked_of, halted, halts_of};

// The mark of a node that has none: of a status, and of a halt.
const NOT_TICKED: u8 = 3;

const NOT_HALTED: u8 = 0;

// A node's mark, and the absent one where it has none.
fn mark(marks: &[u8], node: u32, absent: u8) -> u8
    ensures { result ≡ get_or marks.now node absent }
{
    marks.get(node as usize).copied().unwrap_or(absent)
}

// How many nodes of the report have a mark.
fn count(report: &[u32], marks: &[u8], absent: u8) -> usize
    ensures { result ≡ length (nodes_of marks.now absent report.now) }
{
    report
        .iter()
        .filter(|node| mark(marks, **node, absent) != absent)
        .count()
}

// Writes those nodes, from the output's first place on.
fn write_nodes(report: &[u32], marks: &[u8], absent: u8, nodes: &mut [u32])
    requires { length (nodes_of marks.now absent report.now) ≤ length nodes.old }
    ensures { nodes.new ≡ sets nodes.old 0 (nodes_of marks.now absent report.now) }
{
    let mut n = 0;
    for node in report {
        if mark(marks, *node, absent) != absent {
            nodes[n] = *node;
            n += 1;
        }
    }
}

// Writes the marks of such nodes, likewise.
fn write_marks(nodes: &[u32], marks: &[u8], absent: u8, out: &mut [u8])
    requires { length nodes.now ≤ length out.old }
    ensures { out.new ≡ sets out.old 0 (map (λ v. get_or marks.now v absent) nodes.now) }
{
    for (n, node) in nodes.iter().enumerate() {
        out[n] = mark(marks, *node, absent);
    }
}

// The nodes that a tick ticked, with their statuses, in the order of a report list; how many.
#[tactic(auto, using(crate::proofs::Written::written_part), unfolding(crate::specs::Report::ticked_of))]
pub fn ticked(report: &[u32], statuses: &[u8], nodes: &mut [u32], marks: &mut [u8]) -> Option<usize>
    ensures { listed result nodes.new marks.new ≡ ticked_of report.now statuses.now nodes.old marks.old }
{
    let n = count(report, statuses, NOT_TICKED);
    if n > nodes.len() || n > marks.len() {
        return None;
    }
    write_nodes(report, statuses, NOT_TICKED, nodes);
    write_marks(&nodes[..n], statuses, NOT_TICKED, marks);
    Some(n)
}

// The nodes that a tick halted, in the order of a report list; how many.
#[tactic(auto, unfolding(crate::specs::Report::halts_of))]
pub fn halts(report: &[u32], marks: &[u8], nodes: &mut [u32]) -> Option<usize>
    ensures { halted result nodes.new ≡ halts_of report.now marks.now nodes.old }
{
    let n = count(report, marks, NOT_HALTED);
    if n > nodes.len() {
        return None;
    }
    write_nodes(report, marks, NOT_HALTED, nodes);
    Some(n)
}
