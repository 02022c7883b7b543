//! Laws of nodes.
ghost use Rattle.std.specs.Prelude.{◌≡◌, ◌≤◌, ◌<◌, ℕ, List, ◌∷◌, ◌++◌, length};
ghost use Rattle.graphql_lexical.specs.Cutting.{Lexeme, Cut};
ghost use Rattle.graphql_grammar.specs.Tree.{Scalars, Definition};
ghost use Rattle.graphql_grammar.specs.Grammar.{IsDocument};
ghost use Rattle.graphql_nodes.specs.Nodes.{Node, document_nodes};
ghost use Rattle.graphql_nodes.specs.Forests.{IsForest};
ghost use Rattle.graphql_nodes.specs.laws.SpanLaws.{NodesLieIn};

/// Documents with the same nodes have the same tree, whatever their scalar types and tokens.
pub fn nodes_determine_the_tree<C, F, G>()
    ensures { (S : Scalars C F) (T : Scalars C G) (ts us : List Lexeme) (a b : List (Definition C)) → IsDocument S a ts
        → IsDocument T b us → document_nodes a ≡ document_nodes b → a ≡ b }
{}

/// The nodes of every tree are a forest: each node's descendants follow it, as many as it says, before the next node
/// that isn't one of them.
pub fn nodes_are_a_forest<C>()
    ensures forest { (a : List (Definition C)) → IsForest (document_nodes a) }
    ensures descendants_follow { (a : List (Definition C)) (before after : List (Node C)) (node : Node C)
        → document_nodes a ≡ before ++ node ∷ after → node.descendants ≤ length after }
{}

/// A document has fewer nodes than tokens, and no more than its source has characters.
pub fn few_nodes<C, F>()
    ensures tokens { (S : Scalars C F) (ts : List Lexeme) (a : List (Definition C)) → IsDocument S a ts
        → length (document_nodes a) < length ts }
    ensures characters { (S : Scalars C F) (source : List ℕ) (ts : List Lexeme) (a : List (Definition C))
        → Cut source ts → IsDocument S a ts → length (document_nodes a) ≤ length source }
{}

/// Each node of a document is within its source: it begins and ends at positions of the source, each with the line and
/// the column that it has there.
pub fn nodes_lie_in_the_source<C, F>()
    ensures { (S : Scalars C F) (source : List ℕ) (ts : List Lexeme) (a : List (Definition C)) → Cut source ts
        → IsDocument S a ts → NodesLieIn source (document_nodes a) }
{}
