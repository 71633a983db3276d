//! The path of a node.

ghost use Rattle.std.specs.Prelude.{◌≡◌, ◌≢◌, ◌++◌, [], OnOk, IfErr};
ghost use Rattle.dt_model.specs.Path.{path_text};
ghost use Rattle.dt_trees.specs.Placed.{path_at, IsNode};
ghost use Rattle.dt_text_writer.specs.Written.{Puts, FailsAt};
ghost use Rattle.dt_view.specs.Ways.{way_text, AreNodes};

use dt_names::{Fault, NodeId, Sink};
use dt_read::OpenNodes;
use dt_text_writer::Writer;
use dt_view::{TreeView, way_to};

/// Writes the names of the nodes on a way, each behind a slash.
fn put_way<V: TreeView, S: Sink>(
    view: &V,
    writer: &mut Writer<'_, S>,
    way: &mut OpenNodes,
) -> Result<(), Fault>
    requires { AreNodes (V.tree view.now) way.old }
    ensures written { OnOk result (Puts S.taken (way_text (V.tree view.now) way.old) writer.old writer.new) }
    ensures refused { IfErr result (λ fault. FailsAt S.taken fault (way_text (V.tree view.now) way.old) writer.old writer.new) }
{
    while let Some(node) = way.innermost() {
        writer.put_pieces(&[b"/", view.name(node)])?;
        way.pop();
    }
    Ok(())
}

/// Writes the path of a node.
pub(crate) fn put_node_path<V: TreeView, S: Sink>(
    view: &V,
    writer: &mut Writer<'_, S>,
    node: NodeId,
) -> Result<(), Fault>
    requires { IsNode (V.tree view.now) node }
    ensures written { OnOk result (Puts S.taken (path_text (path_at (V.tree view.now) node)) writer.old writer.new) }
    ensures refused { IfErr result (λ fault. FailsAt S.taken fault (path_text (path_at (V.tree view.now) node)) writer.old writer.new) }
{
    let Some(_) = view.parent(node) else {
        return writer.put(b"/");
    };
    let mut way = way_to(view, node);
    put_way(view, writer, &mut way)
}
