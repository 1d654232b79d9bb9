//! The stores that a digest and names open.
ghost use Rattle.std.specs.Prelude.{◌≡◌, ◌⊎◌, ◌++◌, ℕ, Ok, Some, None, IfOk, IfErr, IsErr, OnOk, List, map, string_bytes};
ghost use Rattle.clap.specs.Words.{App};
ghost use Rattle.hex.specs.Hex.{decode_sized};
ghost use Rattle.st_text.specs.Texts.{Text};
ghost use Rattle.st_auth.specs.Names.{first_bad};
ghost use Rattle.st_core.specs.State.{first_state};
ghost use Rattle.st_command_line.specs.Common.{SaysRoot, RefusesWords};
ghost use Rattle.st_command.specs.Opening.{OpensState, OpensWith, sized_name, names_text, opening_text};
ghost use Rattle.st_command_line.specs.declared.fault.Fault.TheVariants.{BadDigest, BadName, NoMemory};

use st_auth::AuthsFault;
use st_command_line::Fault;
use st_core::{Seed, Store};
use st_journal_store::ReplayedStore;
use st_service::Service;
use std::alloc::{AllocError, Global};

// The bytes that 64 hexadecimal digits write.
fn digest_of(text: &str) -> Result<[u8; 32], Fault>
    ensures ok { IfOk result (λ digest. decode_sized text.now 32 ≡ Ok digest) }
    ensures err { IfErr result (λ fault. (fault ≡ BadDigest) × IsErr (decode_sized text.now 32)) }
{
    let mut digest = [0; 32];
    match hex::decode_to_slice(text, &mut digest) {
        Ok(()) => Ok(digest),
        Err(_) => Err(Fault::BadDigest),
    }
}

// A store of the state that a digest and names open.
fn store_for(alloc: Global, seed: Seed, digest: [u8; 32], names: &[&str]) -> Result<Store, Fault>
    ensures ok { IfOk result (λ store. store ≡ first_state digest (map (λ name. name.now) names.now)) }
    ensures good { OnOk result (first_bad (map (λ name. name.now) names.now) ≡ None) }
    ensures err { IfErr result (λ fault. (fault ≡ NoMemory)
        ⊎ ((fault ≡ BadName) × (place : ℕ) × (first_bad (map (λ name. name.now) names.now) ≡ Some place))) }
{
    match Store::open(alloc, seed, digest, names) {
        Ok(store) => Ok(store),
        Err(AuthsFault::BadName { .. }) => Err(Fault::BadName),
        Err(AuthsFault::NoMemory) => Err(Fault::NoMemory),
    }
}

/// The service over a store of the state that 64 hexadecimal digits and names open. An invalid digest is
/// reported before an invalid name.
pub fn service_for(
    alloc: Global,
    seed: Seed,
    digits: &str,
    names: &[&str],
) -> Result<Service, Fault>
    ensures ok { IfOk result (OpensState digits.now (map (λ name. name.now) names.now)) }
    ensures err { IfErr result (λ fault. (app : App) (words : List Text)
        → SaysRoot app words digits.now (map (λ name. name.now) names.now) → RefusesWords app words fault) }
{
    let digest = digest_of(digits)?;
    let store = store_for(alloc, seed, digest, names)?;
    Ok(Service::new(alloc, alloc, store)?)
}

/// Two stores of the state that 64 hexadecimal digits and names open. An invalid digest is reported before an
/// invalid name.
pub fn stores_for(
    alloc: Global,
    seed: Seed,
    digits: &str,
    names: &[&str],
) -> Result<(Store, Store), Fault>
    ensures alike { IfOk result (λ both. both.1 ≡ both.0) }
    ensures ok { IfOk result (λ both. OpensState digits.now (map (λ name. name.now) names.now) both.0) }
    ensures err { IfErr result (λ fault. (app : App) (words : List Text)
        → SaysRoot app words digits.now (map (λ name. name.now) names.now) → RefusesWords app words fault) }
{
    let digest = digest_of(digits)?;
    let first = store_for(alloc, seed, digest, names)?;
    let second = first.copy()?;
    Ok((first, second))
}

// Puts a name and its length behind a text.
fn push_name(text: &mut String, alloc: Global, name: &str) -> Result<(), AllocError>
    ensures { OnOk result (string_bytes text.new ≡ string_bytes text.old ++ sized_name name.now) }
{
    let length = name.len();
    let part = format!(in alloc; " {length}:{name}")?;
    text.push_str(part.as_str())
}

// Puts names behind a text.
fn push_names(text: &mut String, alloc: Global, names: &[&str]) -> Result<(), AllocError>
    ensures { OnOk result (string_bytes text.new ≡ string_bytes text.old ++ names_text (map (λ name. name.now) names.now)) }
{
    for name in names {
        push_name(text, alloc, name)?;
    }
    Ok(())
}

// What a journal says that its store was opened with.
fn opening_for(alloc: Global, digest: [u8; 32], names: &[&str]) -> Result<String, AllocError>
    ensures { IfOk result (λ text. string_bytes text ≡ opening_text digest (map (λ name. name.now) names.now)) }
{
    let mut text = hex::encode(alloc, digest)?;
    push_names(&mut text, alloc, names)?;
    Ok(text)
}

/// A store of the state that 64 hexadecimal digits and names open, and what a journal of its changes says that it was opened with. An
/// invalid digest is reported before an invalid name.
pub fn store_and_opening_for(
    alloc: Global,
    seed: Seed,
    digits: &str,
    names: &[&str],
) -> Result<(Store, String), Fault>
    ensures ok { IfOk result (λ both. OpensWith digits.now (map (λ name. name.now) names.now) both.0 (string_bytes both.1)) }
    ensures err { IfErr result (λ fault. (app : App) (words : List Text)
        → SaysRoot app words digits.now (map (λ name. name.now) names.now) → RefusesWords app words fault) }
{
    let digest = digest_of(digits)?;
    let opened = store_for(alloc, seed, digest, names)?;
    let opening = opening_for(alloc, digest, names)?;
    Ok((opened, opening))
}

// The state that 64 hexadecimal digits and names open, to which the changes of a journal are applied, and what that journal says
// that its store was opened with. An invalid digest is reported before an invalid name.
pub(crate) fn replayed_for(
    alloc: Global,
    seed: Seed,
    digits: &str,
    names: &[&str],
) -> Result<(ReplayedStore, String), Fault>
    ensures ok { IfOk result (λ both. OpensWith digits.now (map (λ name. name.now) names.now) both.0 (string_bytes both.1)) }
    ensures err { IfErr result (λ fault. (app : App) (words : List Text)
        → SaysRoot app words digits.now (map (λ name. name.now) names.now) → RefusesWords app words fault) }
{
    let (opened, opening) = store_and_opening_for(alloc, seed, digits, names)?;
    Ok((ReplayedStore::new(alloc, opened), opening))
}
