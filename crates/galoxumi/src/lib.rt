// What C and Rust call: every call as a function that answers in numbers; galoxumi_c exports each under
// its name, with its clauses. Each function makes its call, and hands the answer to the function that puts
// it into a struct; it decides nothing itself. include/galoxumi.h says in words what each answers. Definitions: specs/Numbers.antt of
// library_numbers, of library_built and of library_parts.
#![tactic(auto)]

ghost use Rattle.std.specs.Prelude.{◌≡◌, length};
ghost use Rattle.text.specs.CheckMeans.{check_of};
ghost use Rattle.lexer_token.specs.Descriptions.{description_of};
ghost use Rattle.lexer_token.specs.Encodings.{encoding_of};
ghost use Rattle.lexer_token.specs.Records.{span_of};
ghost use Rattle.lexer.specs.Steps.{start_answer, step_of, cursor_of};
ghost use Rattle.lexer.specs.Whole.{lex_answer, lex_memory};
ghost use Rattle.lexer_place.specs.Spans.{span_answer, span_text};
ghost use Rattle.lexer_place.specs.Positions.{position_answer};
ghost use Rattle.decoder_rules.specs.Encodings.{choice_by};
ghost use Rattle.decoder_words.specs.Words.{error_words};
ghost use Rattle.built_broken.specs.Broken.{broken_answer};
ghost use Rattle.built_review.specs.Review.{mark_answer, ticked_marks, unticked_marks, read_answer, count_answer};
ghost use Rattle.built_writing.specs.Writing.{write_answer};
ghost use Rattle.built_figures.specs.Figures.{tallied};
ghost use Rattle.library_numbers.specs.Numbers.{flag, count_numbers, done_numbers, flag_numbers, start_numbers, step_numbers, part_of, part_text};
ghost use Rattle.library_numbers.specs.Numbers.{position_numbers, decode_answer, output_after, errors_after};
ghost use Rattle.library_numbers.specs.Numbers.{described_numbers, encoded_numbers, words_numbers};
ghost use Rattle.library_pieces.specs.Numbers.{open_numbers, body_of, step_numbers as piece_numbers};
ghost use Rattle.library_built.specs.Numbers.{written_bytes, ValueTold};
ghost use Rattle.library_built.specs.Numbers.{broken_numbers, tally_numbers, mend_answer, mended_bytes, mended_list};
ghost use Rattle.built_parts.specs.Feeding.{no_parts, feed_of, close_of, feed_memory, close_memory};
ghost use Rattle.library_parts.specs.Numbers.{start_numbers as partsNumbers, parts_from, fed_numbers};

use built_figures::Totals;
use built_parts::Parts;
use lexer::Cursor;
use lexer_token::{Span, TokenKind};
use library_built::{BrokenNumbers, MendNumbers, TallyNumbers};
use library_numbers::{
    AnswerNumbers, DecodeNumbers, DescribedNumbers, EncodedNumbers, PartNumbers, PositionNumbers,
    StartNumbers, StepNumbers, WordsNumbers,
};
use library_parts::{FedNumbers, PartsNumbers, StateNumbers};
use library_pieces::{OpenNumbers, PieceNumbers};

#[unsafe(no_mangle)]
pub extern "C" fn galoxumi_check_utf8(doc: &[u8]) -> AnswerNumbers
    ensures { result ≡ done_numbers (check_of doc.now) }
{
    library_numbers::answered(text::check_utf8(doc))
}

#[unsafe(no_mangle)]
pub extern "C" fn galoxumi_start(doc: &[u8]) -> StartNumbers
    ensures { result ≡ start_numbers (start_answer doc.now) }
{
    library_numbers::started(Cursor::start(doc))
}

// The caller may make the cursor of any numbers; it is ended if `ended` is not 0.
#[unsafe(no_mangle)]
pub extern "C" fn galoxumi_step(doc: &[u8], place: usize, ended: usize, line: usize) -> StepNumbers
    ensures { result ≡ step_numbers (step_of doc.now (cursor_of place line (flag ended))) }
{
    library_numbers::stepped(library_numbers::cursor_of(place, ended, line).step(doc))
}

#[unsafe(no_mangle)]
pub extern "C" fn galoxumi_lex(doc: &[u8], records: &mut [[usize; 4]]) -> AnswerNumbers
    ensures answer { result ≡ count_numbers (lex_answer doc.now (length records.old)) }
    ensures memory { records.new ≡ lex_memory doc.now records.old }
{
    library_numbers::answered(lexer::lex(doc, records))
}

#[unsafe(no_mangle)]
pub extern "C" fn galoxumi_check_span(doc: &[u8], start: usize, end: usize) -> AnswerNumbers
    ensures { result ≡ done_numbers (span_answer doc.now (span_of start end)) }
{
    library_numbers::answered(lexer_place::check_span(doc, Span::new(start, end)))
}

// The text of a span is answered by its start and length, since an exported function returns no reference.
#[unsafe(no_mangle)]
pub extern "C" fn galoxumi_text(doc: &[u8], start: usize, end: usize) -> PartNumbers
    ensures answer { result ≡ part_of (span_answer doc.now (span_of start end)) start end }
    ensures text { part_text doc.now result ≡ span_text doc.now (span_of start end) }
{
    library_numbers::part_of(
        lexer_place::check_span(doc, Span::new(start, end)),
        start,
        end,
    )
}

#[unsafe(no_mangle)]
pub extern "C" fn galoxumi_position(doc: &[u8], offset: usize) -> PositionNumbers
    ensures { result ≡ position_numbers (position_answer doc.now offset) }
{
    library_numbers::positioned(lexer_place::position_of(doc, offset))
}

#[unsafe(no_mangle)]
pub extern "C" fn galoxumi_decode(
    text: &[u8],
    kind: usize,
    output: &mut [u8],
    errors: &mut [[usize; 3]],
) -> DecodeNumbers
    ensures answer { result ≡ decode_answer text.now 10 kind output.old errors.old }
    ensures bytes { output.new
        ≡ output_after text.now 10 kind output.old errors.old }
    ensures records { errors.new
        ≡ errors_after text.now 10 kind output.old errors.old }
{
    library_numbers::decoded(decoder::decode(text, kind, output, errors))
}

// Decodes as the edition of TOML that `edition` names: 10 for TOML 1.0, 11 for TOML 1.1.
#[unsafe(no_mangle)]
pub extern "C" fn galoxumi_decode_in(
    text: &[u8],
    edition: usize,
    kind: usize,
    output: &mut [u8],
    errors: &mut [[usize; 3]],
) -> DecodeNumbers
    ensures answer { result ≡ decode_answer text.now edition kind output.old errors.old }
    ensures bytes { output.new
        ≡ output_after text.now edition kind output.old errors.old }
    ensures records { errors.new
        ≡ errors_after text.now edition kind output.old errors.old }
{
    library_numbers::decoded(decoder::decode_in(text, edition, kind, output, errors))
}

// A text opened as the kind and the edition that two numbers name: what is wrong with its marks, and its body.
#[unsafe(no_mangle)]
pub extern "C" fn galoxumi_open_text(text: &[u8], edition: usize, kind: usize) -> OpenNumbers
    ensures { result ≡ open_numbers (choice_by edition kind) text.now }
{
    library_pieces::open_in(edition, kind, text)
}

// The first piece of a body, which the caller may make of any numbers, and the body after it.
#[unsafe(no_mangle)]
pub extern "C" fn galoxumi_piece(
    text: &[u8],
    edition: usize,
    kind: usize,
    at: usize,
    end: usize,
    dropping: usize,
) -> PieceNumbers
    ensures { result ≡ piece_numbers (choice_by edition kind) text.now (body_of at end (flag dropping)) }
{
    library_pieces::step_in(edition, kind, text, at, end, dropping)
}

#[unsafe(no_mangle)]
pub extern "C" fn galoxumi_description(kind: usize) -> DescribedNumbers
    ensures { result ≡ described_numbers (description_of kind) }
{
    library_numbers::described(TokenKind::description(kind))
}

#[unsafe(no_mangle)]
pub extern "C" fn galoxumi_encoding(kind: usize) -> EncodedNumbers
    ensures { result ≡ encoded_numbers (encoding_of kind) }
{
    library_numbers::encoded(TokenKind::encoding(kind))
}

#[unsafe(no_mangle)]
pub extern "C" fn galoxumi_error_words(error: usize, edition: usize, which: usize) -> WordsNumbers
    ensures { result ≡ words_numbers (error_words error edition which) }
{
    library_numbers::worded(decoder_words::error_words(error, edition, which))
}

#[unsafe(no_mangle)]
pub extern "C" fn galoxumi_write_value(value: &[u8], output: &mut [u8]) -> AnswerNumbers
    ensures answer { result ≡ count_numbers (write_answer value.now (length output.old)) }
    ensures bytes { output.new ≡ written_bytes value.now output.old }
{
    library_numbers::answered(built_writing::write_value(value, output))
}

// Puts broken strings right, read as TOML 1.0.
#[unsafe(no_mangle)]
pub extern "C" fn galoxumi_put_right(
    doc: &[u8],
    output: &mut [u8],
    records: &mut [[usize; 5]],
) -> MendNumbers
    ensures answer { result ≡ mend_answer doc.now 10 output.old records.old }
    ensures bytes { output.new
        ≡ mended_bytes doc.now 10 output.old records.old }
    ensures records { records.new
        ≡ mended_list doc.now 10 output.old records.old }
{
    library_built::mended(built_mending::put_right(doc, output, records))
}

// The same as the edition of TOML that `edition` names: 10 for TOML 1.0, 11 for TOML 1.1.
#[unsafe(no_mangle)]
pub extern "C" fn galoxumi_put_right_in(
    doc: &[u8],
    edition: usize,
    output: &mut [u8],
    records: &mut [[usize; 5]],
) -> MendNumbers
    ensures answer { result ≡ mend_answer doc.now edition output.old records.old }
    ensures bytes { output.new
        ≡ mended_bytes doc.now edition output.old records.old }
    ensures records { records.new
        ≡ mended_list doc.now edition output.old records.old }
{
    library_built::mended(built_mending::put_right_in(doc, edition, output, records))
}

// Sets a reviewer's bit of a token in a table of marks.
#[unsafe(no_mangle)]
pub extern "C" fn galoxumi_tick(
    records: &[[usize; 4]],
    marks: &mut [u8],
    reviewer: usize,
    token: usize,
) -> AnswerNumbers
    ensures answer { result
        ≡ done_numbers (mark_answer (length records.now) (length marks.old) reviewer token) }
    ensures memory { marks.new
        ≡ ticked_marks (length records.now) marks.old reviewer token }
{
    library_numbers::answered(built_review::tick(records, marks, reviewer, token))
}

// Clears it.
#[unsafe(no_mangle)]
pub extern "C" fn galoxumi_untick(
    records: &[[usize; 4]],
    marks: &mut [u8],
    reviewer: usize,
    token: usize,
) -> AnswerNumbers
    ensures answer { result
        ≡ done_numbers (mark_answer (length records.now) (length marks.old) reviewer token) }
    ensures memory { marks.new
        ≡ unticked_marks (length records.now) marks.old reviewer token }
{
    library_numbers::answered(built_review::untick(records, marks, reviewer, token))
}

// `value` is 1 where it is set.
#[unsafe(no_mangle)]
pub extern "C" fn galoxumi_is_ticked(
    records: &[[usize; 4]],
    marks: &[u8],
    reviewer: usize,
    token: usize,
) -> AnswerNumbers
    ensures { result
        ≡ flag_numbers (read_answer (length records.now) marks.now reviewer token) }
{
    library_numbers::answered(built_review::is_ticked(records, marks, reviewer, token))
}

// `value` is how many of the reviewer's bits are set over the records.
#[unsafe(no_mangle)]
pub extern "C" fn galoxumi_ticks(
    records: &[[usize; 4]],
    marks: &[u8],
    reviewer: usize,
) -> AnswerNumbers
    ensures { result ≡ count_numbers (count_answer (length records.now) marks.now reviewer) }
{
    library_numbers::answered(built_review::ticks(records, marks, reviewer))
}

// `value` is 1 where the records from `start` up to `end`, which is not included, are one value by TOML 1.0.
#[unsafe(no_mangle)]
pub extern "C" fn galoxumi_is_value(
    records: &[[usize; 4]],
    start: usize,
    end: usize,
) -> AnswerNumbers
    ensures { ValueTold records.now 10 start end result }
{
    library_numbers::answered(built_values::is_value(records, start, end))
}

// The same by the edition of TOML that `edition` names: 10 for TOML 1.0, 11 for TOML 1.1.
#[unsafe(no_mangle)]
pub extern "C" fn galoxumi_is_value_in(
    records: &[[usize; 4]],
    edition: usize,
    start: usize,
    end: usize,
) -> AnswerNumbers
    ensures { ValueTold records.now edition start end result }
{
    library_numbers::answered(built_values::is_value_in(records, edition, start, end))
}

// The first string token of a document that decodes with an error, and its first error.
#[unsafe(no_mangle)]
pub extern "C" fn galoxumi_first_broken(doc: &[u8]) -> BrokenNumbers
    ensures { result ≡ broken_numbers (broken_answer doc.now 10) }
{
    library_built::broken(built_broken::first_broken(doc))
}

// The same in the edition of TOML that `edition` names: 10 for TOML 1.0, 11 for TOML 1.1.
#[unsafe(no_mangle)]
pub extern "C" fn galoxumi_first_broken_in(doc: &[u8], edition: usize) -> BrokenNumbers
    ensures { result ≡ broken_numbers (broken_answer doc.now edition) }
{
    library_built::broken(built_broken::first_broken_in(doc, edition))
}

// The totals handed in are read, and those afterwards are handed back.
#[unsafe(no_mangle)]
pub extern "C" fn galoxumi_tally(doc: &[u8], totals: &Totals) -> TallyNumbers
    ensures { result ≡ tally_numbers (tallied doc.now totals.now) }
{
    library_built::tallied(built_figures::tally(doc, *totals))
}

// The state before the first part of a document that comes in parts.
#[unsafe(no_mangle)]
pub extern "C" fn galoxumi_parts_start() -> PartsNumbers
    ensures { result ≡ partsNumbers no_parts }
{
    library_parts::started(Parts::start())
}

// A part. The caller may make the state of any numbers; it is read, and the one after the call is handed back.
#[unsafe(no_mangle)]
pub extern "C" fn galoxumi_parts_feed(
    state: &StateNumbers,
    part: &[u8],
    records: &mut [[usize; 4]],
) -> FedNumbers
    ensures answer { result
        ≡ fed_numbers (feed_of (parts_from state.now) part.now (length records.old)) }
    ensures memory { records.new
        ≡ feed_memory (parts_from state.now) part.now records.old }
{
    library_parts::fed(library_parts::parts_of(*state).feed(part, records))
}

// The closing word.
#[unsafe(no_mangle)]
pub extern "C" fn galoxumi_parts_close(
    state: &StateNumbers,
    records: &mut [[usize; 4]],
) -> FedNumbers
    ensures answer { result ≡ fed_numbers (close_of (parts_from state.now) (length records.old)) }
    ensures memory { records.new ≡ close_memory (parts_from state.now) records.old }
{
    library_parts::fed(library_parts::parts_of(*state).close(records))
}
