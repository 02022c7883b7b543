//! What a call that parses reports.

/// Parses, unless the limits are refused, and reports what was parsed: its lengths or its error. Gives the status. What
/// else is taken are the call's parameters.
macro_rules! reported {
    (
        $parsed:expr,
        $source:ident,
        $limits:ident,
        $nodes:ident,
        $nodes_length:ident,
        $texts:ident,
        $texts_length:ident,
        $error:ident
    ) => {{
        *$nodes_length = 0;
        *$texts_length = 0;
        if firthnapkin_results::limits::are_refused($source, $limits) {
            return firthnapkin_results::status::INVALID_LIMIT;
        }
        match $parsed {
            Ok(firthnapkin_results::flat::Parsed::Tree(lengths)) => {
                *$nodes_length = lengths.nodes;
                *$texts_length = lengths.texts;
                if lengths.nodes <= $nodes.len() && lengths.texts <= $texts.len() {
                    firthnapkin_results::status::OK
                } else {
                    firthnapkin_results::status::BUFFER_TOO_SMALL
                }
            }
            Ok(firthnapkin_results::flat::Parsed::Refused(found)) => {
                *$error = found;
                firthnapkin_results::status::SYNTAX_ERROR
            }
            Ok(firthnapkin_results::flat::Parsed::TooDeep(found)) => {
                *$error = found;
                firthnapkin_results::status::TOO_DEEP
            }
            Ok(firthnapkin_results::flat::Parsed::TooMany(found)) => {
                *$error = found;
                firthnapkin_results::status::TOO_MANY_TOKENS
            }
            Err(unread) => unread.status(),
        }
    }};
}

pub(crate) use reported;
