//! The SCRAM-SHA-256 dialogue of a client (RFC 5802, RFC 7677).

ghost use Rattle.std.specs.Prelude.{◌≡◌, None, IsTrue, IfOk, IfErr};
ghost use Rattle.pg_types.specs.declared.cause.ScramFault.TheVariants.{OutOfMemory};
ghost use Rattle.pg_spec.specs.Passwords.{is_nonce, server_final_fault};
ghost use Rattle.pg_spec.specs.Bindings.{client_final};
ghost use Rattle.pg_scram.specs.Bindings.{binding_of};
ghost use Rattle.pg_scram.specs.Dialogue.{IsOpened, RepliesAs, final_of, reply_of};
ghost use Rattle.pg_scram.specs.Faults.{Rejects};

use crate::binding::ChannelBinding;
use crate::challenge::read;
use crate::messages::{auth_message, client_final_bare, client_first, with_proof};
use crate::proof::{client_proof, server_signature};
use crate::salted::hi;
use crate::verdict::verify;
use pg_errors::ScramFault;
use pg_types::Blob;
use std::alloc::{AllocError, Global};

/// A dialogue whose first message is the client's to send. `update` makes the next state of it.
#[derive(Drop)]
pub struct ScramSha256 {
    password: Blob,
    binding: ChannelBinding,
    nonce: Blob,
    message: Blob,
}

/// A dialogue whose last message is the client's to send. `finish` ends it.
#[derive(Drop)]
pub struct ScramSha256Final {
    message: Blob,
    signature: [u8; 32],
}

impl ScramSha256 {
    /// Begins a dialogue. The password has to be ASCII, since SASLprep isn't done (RFC 5802, section
    /// 2.2). The nonce is 24 bytes of printable ASCII without a comma, drawn anew for each dialogue. Only
    /// want of memory is refused.
    pub fn new(
        alloc: Global,
        password: &[u8],
        binding: ChannelBinding,
        nonce: &[u8],
    ) -> Result<ScramSha256, ScramFault>
        requires nonce { IsTrue (is_nonce nonce.now) }
        ensures ok { IfOk result (λ scram. IsOpened password.now binding nonce.now scram) }
        ensures err { IfErr result (λ fault. fault ≡ OutOfMemory) }
    {
        let message = client_first(alloc, &binding, nonce)?;
        let password = Blob::from_slice(alloc, password)?;
        let nonce = Blob::from_slice(alloc, nonce)?;
        Ok(ScramSha256 {
            password,
            binding,
            nonce,
            message: Blob::new(message),
        })
    }

    /// The client's first message.
    pub fn message(&self) -> &[u8]
        ensures { result.now ≡ self.now.message }
    {
        self.message.as_slice()
    }

    /// Reads the server's first message, and makes the client's last one. The checks come in this
    /// order: BadMessage where it isn't `r=` and a nonce, `,s=` and a salt, `,i=` and digits, BadNonce
    /// where its nonce doesn't begin with the client's, BadSalt where the salt isn't canonical base64,
    /// BadIterations where the count isn't a u32 of at least 1 (RFC 5802, section 7). A state that
    /// refuses is spent.
    pub fn update(self, alloc: Global, server_first: &[u8]) -> Result<ScramSha256Final, ScramFault>
        ensures { RepliesAs result (reply_of self server_first.now) }
    {
        let challenge = read(alloc, self.nonce.as_slice(), server_first)?;
        let salted = hi(
            alloc,
            self.password.as_slice(),
            &challenge.salt,
            challenge.iterations,
        )?;
        Ok(self.reply(alloc, server_first, challenge.nonce, &salted)?)
    }

    /// The reply under a salted password. The nonce is the client's and the server's.
    fn reply(
        &self,
        alloc: Global,
        server_first: &[u8],
        nonce: &[u8],
        salted: &[u8; 32],
    ) -> Result<ScramSha256Final, AllocError>
        ensures { IfOk result (λ final. final_of final ≡ client_final (binding_of self.now.binding) self.now.nonce server_first.now nonce.now salted.now) }
    {
        let bare = client_final_bare(alloc, &self.binding, nonce)?;
        let auth = auth_message(alloc, self.nonce.as_slice(), server_first, &bare)?;
        let message = with_proof(alloc, bare, &client_proof(salted, &auth))?;
        Ok(ScramSha256Final {
            message: Blob::new(message),
            signature: server_signature(salted, &auth),
        })
    }
}

impl ScramSha256Final {
    /// The client's last message.
    pub fn message(&self) -> &[u8]
        ensures { result.now ≡ self.now.message }
    {
        self.message.as_slice()
    }

    /// Reads the server's last message. ServerError comes where it is `e=` and a text, BadMessage where
    /// it is neither that nor `v=` and canonical base64, BadSignature where the signature isn't the one
    /// that the password demands (RFC 5802, section 7). A state that refuses is spent.
    pub fn finish(self, alloc: Global, server_final: &[u8]) -> Result<(), ScramFault>
        ensures ok { IfOk result (λ _. server_final_fault self.signature server_final.now ≡ None) }
        ensures err { IfErr result (λ fault. Rejects fault (server_final_fault self.signature server_final.now)) }
    {
        verify(alloc, &self.signature, server_final)
    }
}
