//! The client's messages (RFC 5802, section 7).

ghost use Rattle.std.specs.Prelude.{◌≡◌, IfOk};
ghost use Rattle.pg_spec.specs.Bindings as spec;
ghost use Rattle.pg_scram.specs.Bindings.{binding_of};

use crate::binding::ChannelBinding;
use crate::encoded::base64;
use std::alloc::{AllocError, Global};

/// The client's first message: no user name, since the startup frame has it.
pub(crate) fn client_first(
    alloc: Global,
    binding: &ChannelBinding,
    nonce: &[u8],
) -> Result<Vec<u8>, AllocError>
    ensures { IfOk result (λ message. message.items ≡ spec.client_first (binding_of binding.now) nonce.now) }
{
    let mut message = Vec::from_slice(alloc, binding.gs2_header())?;
    message.extend_from_slice(b"n=,r=")?;
    message.extend_from_slice(nonce)?;
    Ok(message)
}

/// The client's last message up to the proof. The nonce is the client's and the server's.
pub(crate) fn client_final_bare(
    alloc: Global,
    binding: &ChannelBinding,
    nonce: &[u8],
) -> Result<Vec<u8>, AllocError>
    ensures { IfOk result (λ message. message.items ≡ spec.client_final_bare (binding_of binding.now) nonce.now) }
{
    let mut bound = Vec::from_slice(alloc, binding.gs2_header())?;
    bound.extend_from_slice(binding.data())?;
    let bound = base64(alloc, &bound)?;
    let mut message = Vec::from_slice(alloc, b"c=")?;
    message.extend_from_slice(bound.as_bytes())?;
    message.extend_from_slice(b",r=")?;
    message.extend_from_slice(nonce)?;
    Ok(message)
}

/// What both sides sign.
pub(crate) fn auth_message(
    alloc: Global,
    client_nonce: &[u8],
    server_first: &[u8],
    final_bare: &[u8],
) -> Result<Vec<u8>, AllocError>
    ensures { IfOk result (λ message. message.items ≡ spec.auth_message client_nonce.now server_first.now final_bare.now) }
{
    let mut message = Vec::from_slice(alloc, b"n=,r=")?;
    message.extend_from_slice(client_nonce)?;
    message.extend_from_slice(b",")?;
    message.extend_from_slice(server_first)?;
    message.extend_from_slice(b",")?;
    message.extend_from_slice(final_bare)?;
    Ok(message)
}

/// The client's last message.
pub(crate) fn with_proof(
    alloc: Global,
    final_bare: Vec<u8>,
    proof: &[u8; 32],
) -> Result<Vec<u8>, AllocError>
    ensures { IfOk result (λ message. message.items ≡ spec.with_proof final_bare.items proof.now) }
{
    let proof = base64(alloc, proof)?;
    let mut message = final_bare;
    message.extend_from_slice(b",p=")?;
    message.extend_from_slice(proof.as_bytes())?;
    Ok(message)
}
