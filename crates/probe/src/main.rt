// Answers calls from standard input, one to a line, on standard output, a line for each (docs/ANSWERS.md has the form):
//
// narrow CAP est lct dur dem log
// check CAP COUNT est lct dur dem log
// conflict CAP COUNT est lct dur dem log
// record K log
// overload est lct dur
// head est lct dur
// patterson RESOURCE HORIZON est lct dur dem jobs successors text
// psplib RESOURCE HORIZON est lct dur dem jobs successors text
// write CAP dur dem jobs successors buffer
//
// A list is its length and then its numbers; a text and a buffer are lists of bytes. What is written is the answer's word and
// numbers, then the lists that the call may change, as they are afterwards, for `record` the part that it shows, and for
// `conflict` the member set; `unreadable` where the line has any other form.
//
// The lists of a line stand packed in one lent list of words, as the line has them, and a call changes them there: so what is
// written behind most answers are stretches of these words (`replies`).
#![tactic(auto)]

mod replies;

ghost use Rattle.std.specs.Prelude.{◌≡◌, length};
ghost use Rattle.requests.specs.Sizes.{line_words, text_bytes};

use intake::Reader;
use printing::Sink;
use replies::reply;
use requests::{TEXT, WORDS};
use sayings::Saying;
use std::io::Read;

// Room for the lists of a line, and for its bytes.
#[derive(Drop)]
struct Room {
    words: [u32; WORDS],
    text: [u8; TEXT],
}

impl Room {
    // As much as docs/ANSWERS.md says that a line may hold.
    fn new() -> Room
        ensures words { line_words ≡ length result.words }
        ensures text { text_bytes ≡ length result.text }
    {
        Room {
            words: [0; WORDS],
            text: [0; TEXT],
        }
    }
}

// Answers the line that the reader is at the start of, and goes to the start of the next. The answer is written out before
// anything more is read, so that it is seen at once.
fn line(sink: &mut Sink<'_, impl Print>, reader: &mut Reader<'_, impl Read>, room: &mut Room) {
    let text = &mut room.text[..];
    match requests::take(reader, &mut room.words, text) {
        Some(request) => {
            let n = request.line.bytes;
            reply(sink, request, &mut room.words, &mut text[..n]);
        }
        None => sink.show(Saying::Unreadable),
    }
    sink.finish();
    reader.next_line();
}

// Every line of the input. Nothing says that an input ends, and a proved loop has to; there are no more lines than bytes.
fn serve(sink: &mut Sink<'_, impl Print>, reader: &mut Reader<'_, impl Read>, room: &mut Room) {
    for _ in 0..u64::MAX {
        if reader.cursor.now.is_none() {
            return;
        }
        line(sink, reader, room);
    }
}

// The arrays take 1.2 MB of the stack; a call that reads a project list takes 0.3 MB more.
fn main(rt: HostRuntime) {
    let mut input = rt.stdin();
    let mut source = io::large_buffer();
    serve(
        &mut Sink::new(&rt),
        &mut Reader::new(&mut input, &mut source),
        &mut Room::new(),
    );
}
