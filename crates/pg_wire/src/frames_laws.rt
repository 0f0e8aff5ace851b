//! Laws over the definitions: what a writer appends is read back as the frame that it stands for, and what
//! follows stays. Each body does nothing.

ghost use Rattle.std.specs.Prelude.{◌≡◌, ◌<◌, ◌^◌, ◌++◌, ◌∷◌, [], ℕ, ℤ, List, Option, Some, Ok, length, IsTrue, FitsSigned};
ghost use Rattle.std.specs.Int.{w16, w32};
ghost use Rattle.std.specs.List.{AllByRecursion};
ghost use Rattle.pg_spec.specs.Frames as frames;
ghost use Rattle.pg_spec.specs.ClientFrames.{client_frame_at, opening_frame_at, password_of, sasl_initial_of, is_variant};
ghost use Rattle.pg_spec.specs.ClientFrames as found;

/// The frames of the extended protocol and Query.
pub fn requests_are_read_back()
    ensures query { (text bytes more : List ℕ) → frames.query_frame text ≡ Ok bytes → client_frame_at (bytes ++ more) ≡ Some (found.Query text, more) }
    ensures parse { (name text : List ℕ) (oids : List ℕ) (bytes more : List ℕ) → AllByRecursion (λ oid. oid < 2 ^ 32) oids →
        frames.parse_frame name text oids ≡ Ok bytes → client_frame_at (bytes ++ more) ≡ Some (found.Parse name text oids, more) }
    ensures bind { (portal statement : List ℕ) (formats : List ℤ) (values : List (Option (List ℕ))) (result : ℤ) (bytes more : List ℕ) →
        AllByRecursion (FitsSigned w16) formats → FitsSigned w16 result → frames.bind_frame portal statement formats values result ≡ Ok bytes →
        client_frame_at (bytes ++ more) ≡ Some (found.Bind portal statement formats values (result ∷ []), more) }
    ensures describe { (variant : ℕ) (name bytes more : List ℕ) → IsTrue (is_variant variant) →
        frames.describe_frame variant name ≡ Ok bytes → client_frame_at (bytes ++ more) ≡ Some (found.Describe variant name, more) }
    ensures close { (variant : ℕ) (name bytes more : List ℕ) → IsTrue (is_variant variant) →
        frames.close_frame variant name ≡ Ok bytes → client_frame_at (bytes ++ more) ≡ Some (found.Close variant name, more) }
    ensures execute { (portal : List ℕ) (max_rows : ℤ) (bytes more : List ℕ) → FitsSigned w32 max_rows →
        frames.execute_frame portal max_rows ≡ Ok bytes → client_frame_at (bytes ++ more) ≡ Some (found.Execute portal max_rows, more) }
{}

/// The frames of a copy, and those without a body.
pub fn short_frames_are_read_back()
    ensures copy_data { (piece bytes more : List ℕ) → frames.copy_data_frame piece ≡ Ok bytes → client_frame_at (bytes ++ more) ≡ Some (found.CopyData piece, more) }
    ensures copy_fail { (message bytes more : List ℕ) → frames.copy_fail_frame message ≡ Ok bytes → client_frame_at (bytes ++ more) ≡ Some (found.CopyFail message, more) }
    ensures copy_done { (more : List ℕ) → client_frame_at (frames.copy_done_frame ++ more) ≡ Some (found.CopyDone, more) }
    ensures sync { (more : List ℕ) → client_frame_at (frames.sync_frame ++ more) ≡ Some (found.Sync, more) }
    ensures flush { (more : List ℕ) → client_frame_at (frames.flush_frame ++ more) ≡ Some (found.Flush, more) }
    ensures terminate { (more : List ℕ) → client_frame_at (frames.terminate_frame ++ more) ≡ Some (found.Terminate, more) }
{}

/// The frames that answer a request for authentication. Their tag is the same: the request tells which it is.
pub fn answers_are_read_back()
    ensures password { (password bytes more : List ℕ) → frames.password_frame password ≡ Ok bytes →
        (body : List ℕ) × (client_frame_at (bytes ++ more) ≡ Some (found.Answer body, more)) × (password_of body ≡ Some password) }
    ensures sasl_initial { (mechanism response bytes more : List ℕ) → frames.sasl_initial_frame mechanism response ≡ Ok bytes →
        (body : List ℕ) × (client_frame_at (bytes ++ more) ≡ Some (found.Answer body, more)) × (sasl_initial_of body ≡ Some (mechanism, Some response)) }
    ensures sasl { (response bytes more : List ℕ) → frames.sasl_frame response ≡ Ok bytes →
        client_frame_at (bytes ++ more) ≡ Some (found.Answer response, more) }
{}

/// The frames before all others. A pair whose name is empty would end the startup frame.
pub fn opening_frames_are_read_back()
    ensures startup { (pairs : List (List ℕ × List ℕ)) (bytes more : List ℕ) → AllByRecursion (λ pair. 0 < length pair.0) pairs →
        frames.startup_frame pairs ≡ Ok bytes → opening_frame_at (bytes ++ more) ≡ Some (found.Startup pairs, more) }
    ensures ssl_request { (more : List ℕ) → opening_frame_at (frames.ssl_request ++ more) ≡ Some (found.SslRequest, more) }
    ensures cancel_request { (process_id secret_key : ℤ) (more : List ℕ) → FitsSigned w32 process_id → FitsSigned w32 secret_key →
        opening_frame_at (frames.cancel_request process_id secret_key ++ more) ≡ Some (found.CancelRequest process_id secret_key, more) }
{}
