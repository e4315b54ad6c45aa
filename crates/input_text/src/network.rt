//! The text of a network.
ghost use Rattle.std.specs.Prelude.{◌≡◌, IfOk, codes, option_map};
ghost use Rattle.csv.specs.Reading.{strip_bom};
ghost use Rattle.serde_json.specs.View.{members_view, view};
ghost use Rattle.serde_json.specs.Events.{members_len};
ghost use Rattle.csv_table.specs.Columns.{or_error};
ghost use Rattle.pack_model.specs.Gives.{Gives};
ghost use Rattle.pack_model.specs.Network.{NetworkStands};
ghost use Rattle.input_text.specs.NetworkText.{NetworkText, member_in, network_in, network_of, network_refusal, network_text, not_json, none_further, value_in};

use pack_model::{Memory, Network};
use serde_json::{Map, Value};
use std::alloc::Global;
use thiserror::Error;

const BYTE_ORDER_MARK: [u8; 3] = [0xEF, 0xBB, 0xBF];

/// Why a text has no network.
#[derive(Clone, Copy, Debug, Drop, PartialEq, Eq, Error)]
pub enum NetworkFault {
    /// The text is no JSON.
    #[error("not JSON")]
    NotJson,
    /// The least member at fault: 0 the value is no object; 1 to 5 `version`, `ticks_per_us`,
    /// `nominal_ticks`, `data_ticks`, `first_id` is missing, no whole number or out of range; 6 there is a
    /// further member.
    #[error("member {0} is at fault")]
    BadMember(u8),
    /// Memory ran out.
    #[error("out of memory")]
    Memory,
}

// The text after one byte order mark at its front.
fn without_mark(text: &[u8]) -> &[u8]
    ensures { result.now ≡ strip_bom text.now }
{
    if text.starts_with(&BYTE_ORDER_MARK) {
        &text[3..]
    } else {
        text
    }
}

fn read_value(alloc: Global, text: &[u8]) -> Result<Value, NetworkFault>
    ensures { Gives view network_refusal result (or_error not_json (value_in text.now)) }
{
    match Value::from_slice(alloc, without_mark(text)) {
        Ok(value) => Ok(value),
        Err(e) => Err(if e.is_memory() {
            NetworkFault::Memory
        } else {
            NetworkFault::NotJson
        }),
    }
}

// A member with a whole number from `low` to `high`.
fn member(value: &Value, number: u8, name: &str, low: u32, high: u32) -> Result<u32, NetworkFault>
    ensures { Gives (λ x. x) network_refusal result (member_in low high number name.now (view value.now)) }
{
    match value.get(name).and_then(Value::as_u64) {
        Some(n) if u64::from(low) <= n && n <= u64::from(high) => Ok(n as u32),
        _ => Err(NetworkFault::BadMember(number)),
    }
}

fn count_of(members: &Map<String, Value>) -> usize
    ensures { result ≡ members_len (members_view members.now.entries) }
{
    members.len()
}

fn read_members(value: &Value) -> Result<Network, NetworkFault>
    ensures { Gives (λ x. x) network_refusal result (network_in (view value.now)) }
{
    let Some(members) = value.as_object() else {
        return Err(NetworkFault::BadMember(0));
    };
    member(value, 1, "version", 1, 1)?;
    let ticks_per_us = member(value, 2, "ticks_per_us", 1, 1000)?;
    let nominal_ticks = member(value, 3, "nominal_ticks", 1, 10000)?;
    let data_ticks = member(value, 4, "data_ticks", 1, nominal_ticks)?;
    let first_id = member(value, 5, "first_id", 0, 1920)?;
    if count_of(members) != 5 {
        return Err(NetworkFault::BadMember(6));
    }
    Ok(Network {
        ticks_per_us,
        nominal_ticks,
        data_ticks,
        first_id,
    })
}

fn read_whole(alloc: Global, text: &[u8]) -> Result<Network, NetworkFault>
    ensures { Gives (λ x. x) network_refusal result (network_of text.now) }
{
    let value = read_value(alloc, text)?;
    read_members(&value)
}

/// The network of a text in the format of NETWORK: one JSON object with exactly the members `version`,
/// `ticks_per_us`, `nominal_ticks`, `data_ticks` and `first_id`. A byte order mark at the front is passed
/// over.
pub fn read_network(alloc: Global, text: &[u8]) -> Result<Network, NetworkFault>
    // The network of the text, or its refusal.
    ensures exact { Gives (λ x. x) network_refusal result (network_of text.now) }
    ensures stands { IfOk result NetworkStands }
{
    read_whole(alloc, text)
}

/// The text of a network in the format of NETWORK: one line.
pub fn write_network(alloc: Global, network: &Network) -> Result<Vec<u8>, Memory>
    requires { NetworkStands network.now }
    ensures exact { IfOk result (λ v. v.items ≡ network_text network.now) }
    // `read_network` of the text gives the same network.
    ensures reads_back { IfOk result (λ v. NetworkText v.items network.now) }
{
    let text = format!(in alloc;
        "{{\"version\":1,\"ticks_per_us\":{},\"nominal_ticks\":{},\"data_ticks\":{},\"first_id\":{}}}\n",
        network.ticks_per_us, network.nominal_ticks, network.data_ticks, network.first_id
    )?;
    Ok(text.into_bytes())
}
