// The children in the words of a node.
ghost use Rattle.node_store.specs.Inner.Children.{ChildWords};

use types::arc_ty::Head;

// The words of a node that hold its children, as their own stretch: its body, or no words where its kind has no children.
pub fn child_words<'a>(node: &'a [u32]) -> &'a [u32]
    ensures { ChildWords node.now result.now }
{
    if node.len() == 0 {
        return node;
    }
    let head = Head { word: node[0] };
    let kind = head.kind();
    if kind < Head::LIST {
        return &node[..0];
    }
    if kind > Head::NEG {
        return &node[..0];
    }
    &node[1..]
}
