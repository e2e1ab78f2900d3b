// The calls of the reader as the second engine makes them, by the table of byte classes, as lines can ask for them. Each is
// answered as the call of `answers_calls` that it is like.
#![tactic(auto)]

use answers_asking::TableCall;
use answers_spelling::Reply;
use lexer::Cursor;

// The reply to a call, for which `bytes`, `errors` and `tokens` are there to be lent.
pub fn table_reply(
    call: TableCall,
    numbers: [usize; 3],
    doc: &[u8],
    bytes: &mut [u8],
    errors: &mut [[usize; 3]],
    tokens: &mut [[usize; 4]],
) -> Reply {
    let [a, b, c] = numbers;
    match call {
        TableCall::Lex => answers_forms::tokens(table_lexer::lex(doc, tokens)),
        TableCall::LexLine => answers_forms::token_lines(table_lexer::lex(doc, tokens)),
        TableCall::Dec => answers_forms::decoded(table_decoder::decode(doc, a, bytes, errors)),
        // the edition and the kind
        TableCall::DecIn => {
            answers_forms::decoded(table_decoder::decode_in(doc, a, b, bytes, errors))
        }
        TableCall::Step => {
            let cursor = Cursor {
                place: a,
                line: c,
                ended: b == 1,
            };
            answers_forms::stepped_line(table_lexer::step(cursor, doc))
        }
    }
}
