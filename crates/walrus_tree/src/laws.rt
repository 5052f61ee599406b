//! Laws of trees and of their texts. Each function is its contract alone.
ghost use Rattle.walrus_tree.specs.Once.{TreesAreWalkedOnce};
ghost use Rattle.walrus_tree.specs.TextLaws.{TreesAreNested, TextIsPlain, PlainTextIsOne, TreesAreSound, PartsAreWhole};

/// The sequences that form a tree are nested, as walks ask for.
pub fn trees_are_nested()
    ensures { TreesAreNested }
{}

/// The walk of a tree begins each sequence of the tree, and each once.
pub fn trees_are_walked_once()
    ensures { TreesAreWalkedOnce }
{
    walrus_builder::tree_walks::laws::held_are_nested();
    walrus_builder::tree_walks::laws::walk_is_plain();
}

/// The text of a nested sequence is that of its instructions, each with what it holds behind it, and then what
/// stands behind the sequence, at the place of its end; and nothing else is so.
pub fn text_is_plain()
    ensures plain { TextIsPlain }
    ensures one { PlainTextIsOne }
{
    walrus_builder::tree_walks::laws::ranks_fit();
}

/// In the text of a tree each label names a sequence around it, and behind each sequence that an instruction
/// holds stands one piece.
pub fn trees_are_sound()
    ensures labels { TreesAreSound }
    ensures parts { PartsAreWhole }
{}
