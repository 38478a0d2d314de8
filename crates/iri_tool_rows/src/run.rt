// Runs of the program over whole inputs.
use iri_cli::run::{MEMORY, run};
use iri_rows::error::RowError;
use iri_rows::field::Field;
use iri_text::{MemorySink, PlainSource, Source};
use std::alloc::{AllocError, Global};

// How many bytes the longest output of a row may have.
const ROOM: usize = 8192;

// The words, which stand with a space between them; `-` is none.
fn words_of(alloc: Global, words: &Field) -> Result<Vec<String>, RowError> {
    let mut list = Vec::new(alloc);
    let Some(words) = words.optional()? else {
        return Ok(list);
    };
    for word in words.split(' ') {
        list.push(String::from_str(alloc, word)?)?;
    }
    Ok(list)
}

// The status of a run, which fills a room of this many bytes, and what it writes.
fn ended(
    alloc: Global,
    words: &[String],
    source: &mut PlainSource<'_>,
    room: usize,
) -> Result<(u8, Vec<u8>), AllocError> {
    let mut buf = vec![in alloc; 0; room]?;
    let mut sink = MemorySink::new(&mut buf, &[]);
    let status = run(alloc, words, source, &mut sink);
    if status == MEMORY {
        return Err(AllocError);
    }
    let mut written = Vec::new(alloc);
    written.extend_from_slice(sink.written())?;
    Ok((status, written))
}

// Words before an output.
fn before(alloc: Global, words: String, output: &[u8]) -> Result<Vec<u8>, AllocError> {
    let mut answer = Vec::new(alloc);
    answer.extend_from_slice(words.as_bytes())?;
    answer.extend_from_slice(output)?;
    Ok(answer)
}

// `run WORDS INPUT`: the status, a space, and the output.
fn whole(alloc: Global, words: &Field, input: &Field) -> Result<Vec<u8>, RowError> {
    let words = words_of(alloc, words)?;
    let mut source = PlainSource::new(input.bytes());
    let (status, written) = ended(alloc, &words, &mut source, ROOM)?;
    let status = format!(in alloc; "{status} ")?;
    Ok(before(alloc, status, written.as_slice())?)
}

// `left WORDS INPUT`: the same, with how many bytes of the input are unread before the output.
fn left(alloc: Global, words: &Field, input: &Field) -> Result<Vec<u8>, RowError> {
    let words = words_of(alloc, words)?;
    let mut source = PlainSource::new(input.bytes());
    let (status, written) = ended(alloc, &words, &mut source, ROOM)?;
    let Ok(left) = source.take(&mut [0; 64]) else {
        return Err(RowError::NoRow);
    };
    let status = format!(in alloc; "{status} {left} ")?;
    Ok(before(alloc, status, written.as_slice())?)
}

// `room WORDS INPUT`: the status where the sink has room for exactly the output, that where it has a byte less, and the output.
fn filled(alloc: Global, words: &Field, input: &Field) -> Result<Vec<u8>, RowError> {
    let words = words_of(alloc, words)?;
    let input = input.bytes();
    let (_, output) = ended(alloc, &words, &mut PlainSource::new(input), ROOM)?;
    let room = output.len();
    let (status, written) = ended(alloc, &words, &mut PlainSource::new(input), room)?;
    let less = room.saturating_sub(1);
    let (failed, _) = ended(alloc, &words, &mut PlainSource::new(input), less)?;
    let statuses = format!(in alloc; "{status} {failed} ")?;
    Ok(before(alloc, statuses, written.as_slice())?)
}

pub(crate) fn answer(alloc: Global, verb: &str, fields: &[Field]) -> Result<Vec<u8>, RowError> {
    match (verb, fields) {
        ("run", [words, input]) => whole(alloc, words, input),
        ("left", [words, input]) => left(alloc, words, input),
        ("room", [words, input]) => filled(alloc, words, input),
        _ => Err(RowError::NoRow),
    }
}
