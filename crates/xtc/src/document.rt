// The command that makes a document, over a store that was opened.
ghost use Rattle.std.specs.Prelude.{◌≡◌, ◌≢◌, [], Ok, Err, IfOk, IfErr, OnOk, IfSome};
ghost use Rattle.tree_model.specs.Fragments.{IsValid, plain};
ghost use Rattle.recovery.specs.Openings.{TakesBehind};
ghost use Rattle.script_runs.specs.Counts.{CountedWhere};
ghost use Rattle.command_lines.specs.ValidCommands.{IsValidWhat};
ghost use Rattle.command_lines.specs.declared.command.What.TheVariants.{Call};
ghost use Rattle.session_driver.specs.Lines.{IsValidDoing};
ghost use Rattle.session_driver.specs.declared.doing.Doing.TheVariants as asked;
ghost use Rattle.store_calls.specs.StoreCalls.{IsValidStoreCall};
ghost use Rattle.durable_sessions.specs.Asked.{counts_of, TakesNext};
ghost use Rattle.jsonml_io.specs.declared.fragment_error.FragmentError.TheVariants as fragment_error;
ghost use Rattle.command_words.specs.Commands.{put as put_command};
ghost use Rattle.xtc.specs.Documents.{element_in, put_asks};
ghost use Rattle.xtc.specs.Outside.{ReadSome, read_from, written_to};
ghost use Rattle.xtc.specs.TopCall.{WroteWhole};
ghost use Rattle.xtc.specs.inside.Asking.{all_asks, AreValidAsks, CountsDiskFault, EachState, FromOpening, IfJudged, IsReadElement, IsStop, IsQuiet, IsUnwritten, IsWriteEnd, PutsElement, PutsInput, counts_with};
ghost use Rattle.xtc.specs.inside.CommandRuns.{RunsWithout};

use crate::answers::label_line;
use crate::status::Status;
use crate::store::OpenStore;
use crate::top_call::{Finish, Over, TX_LIMIT, with_disks};
use command_lines::StoreCall;
use dewey_labels::{NoMemory, Text};
use durable_sessions::{SessionBase, ask_in_turn};
use journal::Journal;
use jsonml_io::{FragmentError, read_fragment};
use outside_traits::{Disk, Sink, Source};
use script_runs::{gather, say};
use session_driver::Doing;
use std::alloc::Global;
use store_calls::StoreOp;
use tree_model::{DomCall, Fragment};
use tx_core::{Core, NoCore};

/// The session that a command of one document asks.
pub const SESSION: u32 = 1;

/// The most bytes of an input that is read as a whole.
const WHOLE_LIMIT: usize = 16_777_216;

/// Makes a document of the input, and writes its label.
pub fn run_put<S: Source, K: Sink, J: Disk, P: Disk + Drop>(
    alloc: Global,
    name: &str,
    source: &mut S,
    sink: &mut K,
    store: OpenStore<J, P>,
) -> Finish<J, P>
    requires next { TakesBehind store.journal store.number }
    ensures { RunsWithout J.Disk P.Disk store (put_command name.now) result
        (read_from S.Source source.old source.new) (written_to K.Sink sink.old sink.new) }
{
    let OpenStore {
        base,
        mut journal,
        number,
    } = store;
    let Over { text, base } = put_over(alloc, name, source, base, number, &mut journal);
    with_disks(written(sink, text), journal, base)
}

/// Writes the text that there is, and answers how the command ended.
pub fn written<K: Sink>(sink: &mut K, text: Result<Vec<u8>, Status>) -> Status
    requires { IfErr text IsQuiet }
    ensures text { IfOk text (λ text. IsWriteEnd result × WroteWhole result (K.held sink.old) (K.held sink.new) text.items) }
    ensures none { IfErr text (λ status. (result ≡ status) × (K.held sink.new ≡ K.held sink.old)) }
    ensures write { CountedWhere (result ≡ Status.WriteFault) (K.faults sink.old) (K.faults sink.new) }
{
    match text {
        Ok(text) => Status::from(say(sink, &text)),
        Err(status) => status,
    }
}

/// Makes a document of the whole input over a base, and answers the line to write.
fn put_over<S: Source, B: SessionBase, J: Disk>(
    alloc: Global,
    name: &str,
    source: &mut S,
    base: B,
    number: u32,
    journal: &mut Journal<J>,
) -> Over<B>
    requires next { TakesBehind journal.old number }
    ensures done { PutsInput (FromOpening (B.contents base) number) J.Disk name.now
        (read_from S.Source source.old source.new) journal.old journal.new result.text }
    ensures whole { OnOk result.text (IfSome (S.left source.new) (λ rest. rest ≡ [])) }
    ensures unwritten { IfErr result.text IsUnwritten }
    ensures base { B.stays base result.base }
    ensures read { CountedWhere (result.text ≡ Err Status.ReadFault) (S.faults source.old) (S.faults source.new) }
    ensures counts { CountsDiskFault result.text (counts_with journal.old (B.count base))
        (counts_with journal.new (B.count result.base)) }
{
    match Core::new(alloc, base, number, TX_LIMIT) {
        Ok(mut core) => {
            let text = put_input(alloc, name, source, &mut core, journal);
            Over {
                text,
                base: core.into_base(),
            }
        }
        Err(NoCore { base }) => Over {
            text: Err(Status::NoMemory),
            base,
        },
    }
}

/// Makes a document of the whole input, and answers the line to write.
fn put_input<S: Source, B: SessionBase, J: Disk>(
    alloc: Global,
    name: &str,
    source: &mut S,
    core: &mut Core<StoreOp, B>,
    journal: &mut Journal<J>,
) -> Result<Vec<u8>, Status>
    requires takes { TakesNext core.old journal.old }
    ensures done { PutsInput (EachState B.contents core.old) J.Disk name.now
        (read_from S.Source source.old source.new) journal.old journal.new result }
    ensures whole { OnOk result (IfSome (S.left source.new) (λ rest. rest ≡ [])) }
    ensures unwritten { IfErr result IsUnwritten }
    ensures base { B.stays core.old.base core.new.base }
    ensures read { CountedWhere (result ≡ Err Status.ReadFault) (S.faults source.old) (S.faults source.new) }
    ensures counts { CountsDiskFault result (counts_of B.count core.old journal.old)
        (counts_of B.count core.new journal.new) }
{
    let element = read_element(alloc, source)?;
    put(alloc, core, journal, name, element)
}

/// The element that the whole input is.
fn read_element<S: Source>(alloc: Global, source: &mut S) -> Result<Fragment, Status>
    ensures read { ReadSome (read_from S.Source source.old source.new)
        (λ read. IsReadElement read result) }
    ensures valid { IfOk result (λ element. IsValid (plain element)) }
    ensures whole { IfJudged result (IfSome (S.left source.new) (λ rest. rest ≡ [])) }
    ensures cause { CountedWhere (result ≡ Err Status.ReadFault) (S.faults source.old) (S.faults source.new) }
{
    let input = gather(alloc, WHOLE_LIMIT, source)?;
    Ok(element_in(alloc, &input)?)
}

/// The element that bytes are; a text on top is none.
fn element_in(alloc: Global, bytes: &[u8]) -> Result<Fragment, FragmentError>
    ensures element { IfOk result (λ element. element_in bytes.now ≡ Ok element) }
    ensures refusal { IfErr result (λ why. why ≢ fragment_error.NoMemory → element_in bytes.now ≡ Err why) }
    ensures valid { IfOk result (λ element. IsValid (plain element)) }
{
    let fragment = read_fragment(alloc, bytes)?;
    if fragment.is_text() {
        return Err(FragmentError::NotJsonMl {
            path: Text::from_string(String::new(alloc)),
        });
    }
    Ok(fragment)
}

/// Creates a document of an element and commits, and answers the line of its label.
fn put<B: SessionBase, J: Disk>(
    alloc: Global,
    core: &mut Core<StoreOp, B>,
    journal: &mut Journal<J>,
    name: &str,
    element: Fragment,
) -> Result<Vec<u8>, Status>
    requires takes { TakesNext core.old journal.old }
    requires valid { IsValid (plain element) }
    ensures done { PutsElement B.contents J.Disk name.now element core.old
        journal.old journal.new result }
    ensures stops { IfErr result IsStop }
    ensures base { B.stays core.old.base core.new.base }
    ensures counts { CountsDiskFault result (counts_of B.count core.old journal.old)
        (counts_of B.count core.new journal.new) }
{
    let doings = put_doings(alloc, name, element)?;
    let mut replies = Vec::new(alloc);
    ask_in_turn(alloc, core, journal, SESSION, doings, &mut replies)?;
    Ok(label_line(alloc, replies.as_slice())?)
}

fn put_doings(alloc: Global, name: &str, element: Fragment) -> Result<Vec<Doing<StoreOp>>, NoMemory>
    requires { IsValid (plain element) }
    ensures asks { IfOk result (λ doings. all_asks doings.items ≡ put_asks name.now element) }
    ensures valid { IfOk result (λ doings. AreValidAsks (all_asks doings.items)) }
{
    let create = DomCall::Create(Text::of(alloc, name)?, Some(element));
    Ok(vec![in alloc;
        Doing::Begin,
        doing_of(StoreCall::Dom(create)),
        Doing::Commit,
    ]?)
}

/// Asking a session for a call.
pub fn doing_of(call: StoreCall) -> Doing<StoreOp>
    requires { IsValidWhat (Call call) }
    ensures doing { result ≡ asked.Call call }
    ensures valid { IsValidDoing IsValidStoreCall result }
{
    let call = StoreOp::new(call);
    // It tells that the call is valid.
    let _call = call.call();
    Doing::Call(call)
}
