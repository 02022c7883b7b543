//! Laws of nodes whose scalars are literals.
ghost use Rattle.std.specs.Prelude.{◌≤◌, ℕ, List, length, encode_utf8_all};
ghost use Rattle.graphql_lexical.specs.Cutting.{Lexeme, Cut};
ghost use Rattle.graphql_grammar.specs.Tree.{Definition};
ghost use Rattle.graphql_grammar.specs.Grammar.{IsDocument};
ghost use Rattle.graphql_nodes.specs.Nodes.{document_nodes};
ghost use Rattle.juniper_values.specs.Scalar.{Content, boolean};
ghost use Rattle.juniper_tree.specs.Scalars.{stated};
ghost use Rattle.juniper_nodes.specs.Literal.{literal_reading};
ghost use Rattle.juniper_nodes.specs.NodeTexts.{node_texts};

/// The texts of a document's nodes are together no longer than the document's source, in bytes of UTF-8: of each type
/// how it is written, and of each String what it means.
pub fn short_texts()
    ensures { (source : List ℕ) (ts : List Lexeme) (a : List (Definition Content)) → Cut source ts
        → IsDocument (stated literal_reading boolean) a ts
        → length (encode_utf8_all (node_texts (document_nodes a))) ≤ length (encode_utf8_all source) }
{}
