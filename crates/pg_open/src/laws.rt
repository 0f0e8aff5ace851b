//! A law over the definitions: it shows what they mean. Its body does nothing.

ghost use Rattle.std.specs.Prelude.{◌≡◌, ℕ, Bool, true, false};
ghost use Rattle.std.specs.Str.{byte};
ghost use Rattle.pg_spec.specs.Faults.{PreferDirect, NoHostname, Refused};
ghost use Rattle.pg_spec.specs.Settings.{Mode, Disable, Prefer, Require, Negotiation, Postgres, Direct};
ghost use Rattle.pg_open.specs.Choices.{Raw, Shakes, Fails, Asks, first_choice, after_byte};

/// The rows of the choice. Before a byte, by the mode, how TLS begins, and whether the connector can connect; then by
/// the byte that answers the SSLRequest.
pub fn rows_of_the_choice()
    ensures disabled { (n : Negotiation) (can host : Bool) → first_choice Disable n can host ≡ Raw }
    ensures no_connector { (n : Negotiation) (host : Bool) → first_choice Prefer n false host ≡ Raw }
    ensures direct_preferred { (host : Bool) → first_choice Prefer Direct true host ≡ Fails PreferDirect }
    ensures preferred { (host : Bool) → first_choice Prefer Postgres true host ≡ Asks }
    ensures direct { (can : Bool) → first_choice Require Direct can true ≡ Shakes }
    ensures direct_to_no_name { (can : Bool) → first_choice Require Direct can false ≡ Fails NoHostname }
    ensures required { (can host : Bool) → first_choice Require Postgres can host ≡ Asks }
    ensures yes { (mode : Mode) → after_byte mode true (byte "S") ≡ Shakes }
    ensures yes_to_no_name { (mode : Mode) → after_byte mode false (byte "S") ≡ Fails NoHostname }
    ensures refused { (host : Bool) (b : ℕ) → (b ≡ byte "S" → ⊥) →
        after_byte Require host b ≡ Fails Refused }
    ensures goes_on { (host : Bool) (b : ℕ) → (b ≡ byte "S" → ⊥) →
        after_byte Prefer host b ≡ Raw }
{}
