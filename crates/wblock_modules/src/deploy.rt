//! The command `deploy WORLD MODULE... [--onto OLD] [--json]`: the world of the contracts that modules are, with no cells; or the world OLD with these contracts
//! behind its own.

ghost use Rattle.std.specs.Prelude.{◌≡◌, ◌+◌, ◌≤◌, [], ◌∷◌, ◌++◌, true, false, IsTrue, IfOk, IfErr, OnOk, length, vec_len, map, string_bytes};
ghost use Rattle.spec_block.specs.Bytes.{world_bytes};
ghost use Rattle.serde_json.specs.View.{view};
ghost use Rattle.wblock_json.specs.Json.{IsJson, IsLineOf};
ghost use Rattle.wblock_line.specs.Refusals.{refusal_text};
ghost use Rattle.wblock_line.specs.Answers.{CountsFault, IsOfFile, upshot_of};
ghost use Rattle.wblock_line.specs.Transitions.{leaving, WritesBeside};
ghost use Rattle.world.specs.Views.{contract_view, world_view};
ghost use Rattle.wblock_modules.specs.Deploys.{HasCount, IsDeployedText, IsModuleLine, IsRead, IsReadBehind, FitsBehind, IsRefusalLine, IsNextModule, IsDone, IsEmpty, IsOld, IsNextDeployed, GivesBase, TellsCount, Deploys, extended, onto_text, refusal_line};
ghost use Rattle.wblock_modules.specs.Objects.{deployed_data, onto_data};

use link::deployed::Deployed;
use serde_json::{Value as Json, json};
use std::alloc::{AllocError, Global};
use storage::Cells;
use wblock_io::Files;
use wblock_json::{json_refusal, value_line};
use wblock_line::{
    Answer, Change, Fault, ModuleRefusal, NextWorld, Noted, Stop, Transition, WorldFile,
    read_contract, read_file, read_world_file, refuse, with_world,
};
use world::{World, encode_world};
use wtypes::NoMemory;

/// What the modules of the files come to.
#[derive(Drop)]
pub enum Modules {
    /// The contracts, in their order.
    Linked(Vec<Deployed<Global>>),
    /// One is refused, or they are too many, with what is to be printed and this sentence.
    Refused(String, String),
}

/// The line of the module of this number that is refused.
fn module_line(alloc: Global, refusal: ModuleRefusal, number: usize) -> Result<String, AllocError>
    ensures { IfOk result (λ text. string_bytes text ≡ refusal_line refusal number) }
{
    let line = format!(in alloc; "{refusal} module {number}\n")?;
    Ok(line)
}

/// The line of a refusal.
fn line_of(alloc: Global, refusal: ModuleRefusal) -> Result<String, AllocError>
    ensures { IfOk result (λ text. string_bytes text ≡ refusal_text refusal ++ 10 ∷ []) }
{
    let line = format!(in alloc; "{refusal}\n")?;
    Ok(line)
}

/// The object of the module of this number that is refused, with this sentence.
fn module_object(
    alloc: Global,
    refusal: ModuleRefusal,
    number: usize,
    why: &str,
) -> Result<String, AllocError>
    ensures { IfOk result (λ text. IsModuleLine true refusal number (string_bytes text) why.now) }
{
    let line = line_of(alloc, refusal)?;
    json_refusal(alloc, Some(number), line.as_str(), why)
}

/// What is told of the module of this number that is refused: the line, or the same as JSON, with this sentence.
fn module_told(
    alloc: Global,
    json: bool,
    refusal: ModuleRefusal,
    number: usize,
    why: &str,
) -> Result<String, AllocError>
    ensures { IfOk result (λ text. IsModuleLine json refusal number (string_bytes text) why.now) }
{
    if json {
        module_object(alloc, refusal, number, why)
    } else {
        module_line(alloc, refusal, number)
    }
}

/// What is told of the module of these bytes and this number that is refused; and the sentence of the refusal.
fn refusal_of(
    alloc: Global,
    json: bool,
    bytes: &[u8],
    refusal: ModuleRefusal,
    number: usize,
) -> Result<Modules, AllocError>
    ensures { IfOk result (IsRefusalLine json refusal number) }
{
    let words = refusal.words(alloc, bytes)?;
    let why = format!(in alloc; "module {number}: {words}")?;
    let told = module_told(alloc, json, refusal, number, why.as_str())?;
    Ok(Modules::Refused(told, why))
}

/// The same, with the fault of a command.
fn refuse_module<'a>(
    alloc: Global,
    json: bool,
    bytes: &[u8],
    refusal: ModuleRefusal,
    number: usize,
) -> Result<Modules, Fault<'a>>
    ensures line { IfOk result (IsRefusalLine json refusal number) }
    ensures fault { IfErr result (λ f. f ≡ Fault.NoMemory) }
{
    match refusal_of(alloc, json, bytes, refusal, number) {
        Ok(refused) => Ok(refused),
        Err(AllocError) => Err(Fault::NoMemory),
    }
}

/// Reads modules, each judged before the next is read.
fn read_modules<'a, F: Files>(
    alloc: Global,
    files: &mut F,
    json: bool,
    names: &[&'a str],
) -> Result<Modules, Fault<'a>>
    ensures count { IfOk result (HasCount (length names.now)) }
    ensures read { IfOk result (λ m. IsTrue F.tells → IsRead json (F.holds files.old) (map (λ w. w.now) names.now) m) }
    ensures kept { IsTrue F.tells → F.holds files.new ≡ F.holds files.old }
    ensures calm { OnOk result (F.failures files.new ≡ F.failures files.old) }
    ensures counted { IfErr result (λ f. CountsFault f (F.failures files.old) (F.failures files.new)) }
    ensures next { IfErr result (IsOfFile (λ name. IsTrue F.tells → IsNextModule (F.holds files.old) (map (λ w. w.now) names.now) name)) }
{
    let mut contracts = Vec::new(alloc);
    let mut number = 0;
    while number < names.len() {
        let bytes = read_file(alloc, files, names[number])?;
        match read_contract(alloc, bytes.as_slice()) {
            Ok(contract) => match contracts.push(contract) {
                Ok(()) => number += 1,
                Err(_) => return Err(Fault::NoMemory),
            },
            Err(Stop::Refused(refusal)) => {
                return refuse_module(alloc, json, bytes.as_slice(), refusal, number);
            }
            Err(Stop::NoMemory) => return Err(Fault::NoMemory),
        }
    }
    Ok(Modules::Linked(contracts))
}

/// The world of nothing.
pub fn empty_world(alloc: Global) -> World
    ensures { IsEmpty (world_view result) }
{
    World::new(Vec::new(alloc), Cells::new(alloc))
}

/// The world that is gone on from: that of OLD, or the world of nothing where none is named; or why OLD holds none.
fn read_base<'a, F: Files>(
    alloc: Global,
    files: &mut F,
    onto: Option<&'a str>,
) -> Result<WorldFile, Fault<'a>>
    ensures gives { IfOk result (λ found. IsTrue F.tells → GivesBase (F.holds files.old) onto.entry found) }
    ensures kept { IsTrue F.tells → F.holds files.new ≡ F.holds files.old }
    ensures calm { OnOk result (F.failures files.new ≡ F.failures files.old) }
    ensures counted { IfErr result (λ f. CountsFault f (F.failures files.old) (F.failures files.new)) }
    ensures named { IfErr result (IsOfFile (IsOld onto.entry)) }
{
    match onto {
        None => Ok(WorldFile::Read(empty_world(alloc))),
        Some(old) => read_world_file(alloc, files, old),
    }
}

/// How many contracts a world has.
fn count_of(world: &World) -> usize
    ensures count { result ≡ length (world_view world.now).contracts }
    ensures few { result ≤ 1024 }
{
    world.contracts().len()
}

/// A world with these contracts behind its own.
fn extended_world(
    alloc: Global,
    base: World,
    contracts: Vec<Deployed<Global>>,
) -> Result<World, AllocError>
    requires { length (world_view base).contracts + vec_len contracts ≤ 1024 }
    ensures { IfOk result (λ world. world_view world ≡ extended (world_view base) (map contract_view contracts.items)) }
{
    let mut behind = contracts;
    let (mut all, cells) = base.into_parts();
    all.append(&mut behind)?;
    let world = World::new(all, cells);
    Ok(world)
}

/// The bytes of a world with these contracts behind its own.
///
/// # Errors
///
/// Memory was refused.
pub fn encode_extended(
    alloc: Global,
    base: World,
    contracts: Vec<Deployed<Global>>,
) -> Result<Vec<u8>, NoMemory>
    requires { length (world_view base).contracts + vec_len contracts ≤ 1024 }
    ensures { IfOk result (λ bytes. bytes.items ≡ world_bytes (extended (world_view base) (map contract_view contracts.items))) }
{
    let world = extended_world(alloc, base, contracts)?;
    encode_world(alloc, &world)
}

/// ` onto M`, M the number of OLD's contracts, or nothing where no OLD is named.
fn onto_text_of(alloc: Global, onto: Option<&str>, count: usize) -> Result<String, AllocError>
    ensures { IfOk result (λ text. string_bytes text ≡ onto_text onto.entry count) }
{
    match onto {
        None => Ok(String::new(alloc)),
        Some(_) => format!(in alloc; " onto {count}"),
    }
}

/// `deployed N contracts`, and ` onto M` behind it.
fn deployed_text_of(
    alloc: Global,
    count: usize,
    onto: Option<&str>,
    before: usize,
) -> Result<String, AllocError>
    ensures { IfOk result (λ text. IsDeployedText false count onto.entry before (string_bytes text)) }
{
    let behind = onto_text_of(alloc, onto, before)?;
    let text = format!(in alloc; "deployed {count} contracts{behind}\n")?;
    Ok(text)
}

/// The number of OLD's contracts, where OLD is named.
fn onto_of(onto: Option<&str>, before: usize) -> Json
    ensures { view result ≡ onto_data onto.entry before }
{
    match onto {
        None => Json::Null,
        Some(_) => Json::from(before),
    }
}

/// The same as JSON.
#[tactic(auto, unfolding(crate::specs::Objects::deployed_data))]
fn deployed_of(
    alloc: Global,
    count: usize,
    onto: Option<&str>,
    before: usize,
) -> Result<Json, AllocError>
    ensures { IfOk result (λ v. view v ≡ deployed_data count onto.entry before) }
{
    let onto = onto_of(onto, before);
    json!(in alloc; {"contracts": count, "onto": onto})
}

/// The line of the same as JSON.
fn deployed_json_of(
    alloc: Global,
    count: usize,
    onto: Option<&str>,
    before: usize,
) -> Result<String, AllocError>
    ensures { IfOk result (λ text. IsLineOf (IsJson (deployed_data count onto.entry before)) (string_bytes text)) }
{
    let value = deployed_of(alloc, count, onto, before)?;
    value_line(alloc, &value)
}

/// What is printed of so many contracts behind so many of OLD.
fn deployed_told(
    alloc: Global,
    json: bool,
    count: usize,
    onto: Option<&str>,
    before: usize,
) -> Result<String, AllocError>
    ensures { IfOk result (λ text. IsDeployedText json count onto.entry before (string_bytes text)) }
{
    if json {
        deployed_json_of(alloc, count, onto, before)
    } else {
        deployed_text_of(alloc, count, onto, before)
    }
}

/// What is done with these contracts behind those of a world, which is that of OLD where OLD is named: the world of all of them is left, to be written.
///
/// # Errors
///
/// Memory was refused.
pub fn extend<'a>(
    alloc: Global,
    json: bool,
    world: &'a str,
    onto: Option<&str>,
    base: World,
    contracts: Vec<Deployed<Global>>,
) -> Result<Transition<'a>, NoMemory>
    requires { length (world_view base).contracts + vec_len contracts ≤ 1024 }
    ensures beside { IfOk result (WritesBeside 0) }
    ensures done { IfOk result (λ t. IsDone json world.entry.now (world_bytes (extended (world_view base) (map contract_view contracts.items))) (vec_len contracts) onto.entry (length (world_view base).contracts) (leaving t)) }
{
    let count = contracts.len();
    let before = count_of(&base);
    let text = deployed_told(alloc, json, count, onto, before)?;
    let next = NextWorld {
        name: world,
        world: extended_world(alloc, base, contracts)?,
    };
    Ok(Transition::Done(Change {
        writes: Vec::new(alloc),
        next: Some(next),
        text,
        note: String::new(alloc),
    }))
}

/// The same, with the bytes of the world.
fn extend_encoded<'a>(
    alloc: Global,
    json: bool,
    world: &'a str,
    onto: Option<&str>,
    base: World,
    contracts: Vec<Deployed<Global>>,
) -> Result<Answer<'a>, NoMemory>
    requires { length (world_view base).contracts + vec_len contracts ≤ 1024 }
    ensures { IfOk result (λ a. IsDone json world.entry.now (world_bytes (extended (world_view base) (map contract_view contracts.items))) (vec_len contracts) onto.entry (length (world_view base).contracts) (upshot_of a)) }
{
    let transition = extend(alloc, json, world, onto, base, contracts)?;
    let Noted {
        answer,
        note: _note,
    } = with_world(alloc, transition)?;
    Ok(answer)
}

/// What is said of so many contracts of OLD and so many modules, which are too many for a world.
fn refuse_crowd(
    alloc: Global,
    json: bool,
    contracts: usize,
    modules: usize,
) -> Result<Modules, AllocError>
    requires contracts { contracts ≤ 1024 }
    requires modules { modules ≤ 1024 }
    ensures { IfOk result (TellsCount json (contracts + modules)) }
{
    let count = contracts + modules;
    let line = format!(in alloc; "refused deploy 6 {count}\n")?;
    let why = format!(in alloc;
        "world: {contracts} contracts of OLD and {modules} modules are more than 1,024 contracts; deploy fewer"
    )?;
    if json {
        let told = json_refusal(alloc, None, line.as_str(), why.as_str())?;
        return Ok(Modules::Refused(told, why));
    }
    Ok(Modules::Refused(line, why))
}

/// Reads modules that are to stand behind the contracts of a world: they are refused where they are too many, and none is read then; else each is judged
/// before the next is read.
#[tactic(auto, using(crate::proofs::Behind::crowd_fits, crate::proofs::Behind::crowd_count, crate::proofs::Behind::crowd_read))]
pub fn read_modules_behind<'a, F: Files>(
    alloc: Global,
    files: &mut F,
    json: bool,
    base: &World,
    names: &[&'a str],
) -> Result<Modules, Fault<'a>>
    requires { length names.now ≤ 1024 }
    ensures fits { IfOk result (FitsBehind (world_view base.now)) }
    ensures count { IfOk result (HasCount (length names.now)) }
    ensures read { IfOk result (λ m. IsTrue F.tells → IsReadBehind json (F.holds files.old) (world_view base.now) (map (λ w. w.now) names.now) m) }
    ensures kept { IsTrue F.tells → F.holds files.new ≡ F.holds files.old }
    ensures calm { OnOk result (F.failures files.new ≡ F.failures files.old) }
    ensures counted { IfErr result (λ f. CountsFault f (F.failures files.old) (F.failures files.new)) }
    ensures room { IfErr result (IsOfFile (λ name. length (world_view base.now).contracts + length names.now ≤ 1024)) }
    ensures next { IfErr result (IsOfFile (λ name. IsTrue F.tells → IsNextModule (F.holds files.old) (map (λ w. w.now) names.now) name)) }
{
    let contracts = count_of(base);
    let is_crowded = contracts + names.len() > World::MOST_CONTRACTS;
    if is_crowded {
        return match refuse_crowd(alloc, json, contracts, names.len()) {
            Ok(refused) => Ok(refused),
            Err(AllocError) => Err(Fault::NoMemory),
        };
    }
    read_modules(alloc, files, json, names)
}

/// What `deploy` comes to: the world of the contracts that the modules of the files are, in their order, is to be written. They stand behind the
/// contracts of OLD, whose numbers stay, and over its cells; where no OLD is named, there are no others and no cells. Or OLD is refused, since it
/// holds no world, or since the contracts are more than 1,024 in all; no module is read then. Or the first module that gives no contract is. It is told
/// in lines or as JSON. No file is written yet.
pub fn deploy_modules<'a, F: Files>(
    alloc: Global,
    files: &mut F,
    json: bool,
    world: &'a str,
    onto: Option<&'a str>,
    modules: &[&'a str],
) -> Result<Answer<'a>, Fault<'a>>
    requires { length modules.now ≤ 1024 }
    ensures answers { IfOk result (λ a. IsTrue F.tells → Deploys json (F.holds files.old) world.entry.now onto.entry (map (λ w. w.now) modules.now) (upshot_of a)) }
    ensures kept { IsTrue F.tells → F.holds files.new ≡ F.holds files.old }
    ensures calm { OnOk result (F.failures files.new ≡ F.failures files.old) }
    ensures counted { IfErr result (λ f. CountsFault f (F.failures files.old) (F.failures files.new)) }
    ensures next { IfErr result (IsOfFile (λ name. IsTrue F.tells → IsNextDeployed (F.holds files.old) onto.entry (map (λ w. w.now) modules.now) name)) }
{
    let base = match read_base(alloc, files, onto)? {
        WorldFile::Read(base) => base,
        WorldFile::Refused(line, why) => return refuse(alloc, json, line, why),
    };
    match read_modules_behind(alloc, files, json, &base, modules)? {
        Modules::Refused(told, why) => Ok(Answer::Refused(told, why)),
        Modules::Linked(contracts) => {
            match extend_encoded(alloc, json, world, onto, base, contracts) {
                Ok(answer) => Ok(answer),
                Err(NoMemory) => Err(Fault::NoMemory),
            }
        }
    }
}
