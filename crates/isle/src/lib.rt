// The entries for C. A slice is a pointer and a length. Of lengths and contents nothing is asked; what the caller owes is that an output
// overlaps no other buffer of the call.
#![tactic(auto)]

ghost use Rattle.std.specs.Prelude.{◌≡◌, ℕ, ◌/◌, length};
ghost use Rattle.records.specs.Slots.{slots};
ghost use Rattle.records.specs.Result.{refusal_of};
ghost use Rattle.tokens.specs.Input.{Input, input};
ghost use Rattle.parser.specs.Reading.{reading};
ghost use Rattle.reading.specs.Answered.{Answered};
ghost use Rattle.texts.specs.TextReading.{text_reading};
ghost use Rattle.grammar.specs.Meaning.{Worth};
ghost use Rattle.closed.specs.Closed.{Closed};
ghost use Rattle.text_grammar.specs.TextMeaning.{TextWorth, TextClosed};
ghost use Rattle.templating.specs.Calls.{Ended, making, substituting};
ghost use Rattle.opening.specs.Answers.{outputs};
ghost use Rattle.openings.specs.Calls.{Left, opening_of};
ghost use Rattle.openings.specs.Meaning.{OpeningWorth};

// The records of the definitions that the tokens are, or one refusal with its place. `answer` fixes the returned number and
// every byte of the output. `meaning` says what they are worth. An acceptance: the grammar derives the whole list as these trees
// and no others, nested at most 64 deep, and their records fit. 7, 1 and 2: this ground of document 01 holds and none before it.
// 8 and 10 to 27: the tokens are good and nothing is derived; the place is the position of a token or the end, and it is 8 only
// where the first pattern or expression of depth 65 begins. 6: the list is derived, and its records are more than the space.
// `closed`: what is accepted, `isle_open` takes as a definition list, and no name in it is empty.
#[unsafe(no_mangle)]
pub extern "C" fn isle_read(tokens: &[u8], text: &[u8], end: u32, out: &mut [u8]) -> u64
    ensures answer { Answered (reading (input tokens.now text.now end) (slots out.old)) (length out.old) out.new result }
    ensures meaning { Worth (input tokens.now text.now end) (slots out.old) (length out.old) result out.new }
    ensures closed { refusal_of result ≡ 0 → Closed (input tokens.now text.now end) result out.new }
{
    reading::read(tokens, text, end, out)
}

// The records of the definitions that the text is, or one refusal with its place. `answer` fixes the returned number and every byte of the output.
// `meaning` says what they are worth. An acceptance: the text is within the limit and has no byte of 128 or more, the lexer makes at most 16,384 tokens of all of
// it and refuses none, the grammar derives them as these trees and no others, nested at most 64 deep, and their records fit. 41: the first byte of 128 or more
// stands there. 40: the lexer refuses there, behind tokens that it does not refuse. 7: the text is too long, or the lexer makes 16,385 tokens. 8 and 10 to 27:
// nothing is derived, and the place is the position of a token that the lexer makes, or the end. 6: the text is derived, and its records are more than the space.
// `closed`: what is accepted, `isle_open` takes as a definition list, and no name in it is empty.
#[unsafe(no_mangle)]
pub extern "C" fn isle_read_text(text: &[u8], out: &mut [u8]) -> u64
    ensures answer { Answered (text_reading text.now (slots out.old)) (length out.old) out.new result }
    ensures meaning { TextWorth text.now (slots out.old) (length out.old) result out.new }
    ensures closed { refusal_of result ≡ 0 → TextClosed text.now result out.new }
{
    texts::read_text(text, out)
}

// The template of one pattern by its parameters, a list of Idents: document 01, 'Templates'. `answer` fixes the returned number and every
// byte of the output.
#[unsafe(no_mangle)]
pub extern "C" fn isle_make_template(
    text: &[u8],
    pattern: &[u8],
    params: &[u8],
    out: &mut [u8],
) -> u64
    ensures answer { Ended (making text.now pattern.now params.now out.old) (length out.old) out.new result }
{
    templating::make(text, pattern, params, out)
}

// One template with its MacroArgs replaced by the patterns at their indices. `answer` fixes the returned number and every byte of the output.
#[unsafe(no_mangle)]
pub extern "C" fn isle_substitute(
    text: &[u8],
    template: &[u8],
    patterns: &[u8],
    out: &mut [u8],
) -> u64
    ensures answer { Ended (substituting text.now template.now patterns.now out.old) (length out.old) out.new result }
{
    templating::fill(text, template, patterns, out)
}

// The pattern with its calls of extractors opened, to the output, and every extractor's opened template, in list order, to the store.
// `answer` fixes the returned number and every byte of both. `meaning` is demand 3: a refusal is the ground of document 01 that holds at that place,
// with none before it in the order; after an acceptance every list of single openings, anywhere and in any order, is bounded, ends in exactly these records
// where no call is left, can otherwise be continued to them, and no step of it is refused.
#[unsafe(no_mangle)]
pub extern "C" fn isle_open(
    text: &[u8],
    defs: &[u8],
    pattern: &[u8],
    store: &mut [u8],
    out: &mut [u8],
) -> u64
    ensures answer { Left (opening_of text.now defs.now pattern.now (outputs store.old out.old)) (outputs store.old out.old) (outputs store.new out.new) result }
    ensures meaning { OpeningWorth text.now defs.now pattern.now (outputs store.old out.old) (outputs store.new out.new) result }
{
    openings::open(text, defs, pattern, store, out)
}
