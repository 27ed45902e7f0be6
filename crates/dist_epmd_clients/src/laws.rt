//! Laws of the definitions alone: the pieces in which a request comes do not matter.

ghost use Rattle.std.specs.Prelude.{◌≡◌, ◌≢◌, ℕ, ◌<◌, ◌≤◌, ◌∷◌, ◌++◌, [], Bool, List, None, Some, Ok, length};
ghost use Rattle.std.specs.{Int.w16, List.AllByRecursion, List.concat};
ghost use Rattle.dist_frames.specs.Stream.{body_frame};
ghost use Rattle.dist_epmd.specs.Layout.{InfoFits, RequestFits, TextsFit, SpellsRequest, request_text};
ghost use Rattle.dist_epmd.specs.{Registrations.Registrations, Reading.info_at, Reading.read_request};
ghost use Rattle.dist_epmd.specs.declared.message.{NodeInfo.NodeInfo, Request.Request, Request.TheVariants.Alive, Request.TheVariants.Names};
ghost use Rattle.dist_epmd_clients.specs.Asking.{request_question, front, question};
ghost use Rattle.dist_epmd_clients.specs.{Clients.new_client, Replying.after_piece, Replying.after_pieces};
ghost use Rattle.dist_epmd_clients.specs.declared.question.Question.TheVariants.{Inside, Nothing};

/// A body asks for what its front spells. The front of a spelling of a request is the whole. Bytes behind a registration's extra
/// and behind the one byte of the question for all names change nothing. A registration that ends inside its fields is its own
/// front, and so is a body with any other first byte: they ask for what the specification reads in them.
pub fn a_front_asks()
    ensures spelled { (m : Request) (body : List ℕ) → RequestFits m → SpellsRequest m body → front body ≡ body }
    ensures registration { (info : NodeInfo) (more : List ℕ) → InfoFits info → TextsFit info →
        read_request (front (request_text (Alive info) ++ more)) ≡ Ok (Alive info) }
    ensures short { (fields : List ℕ) → info_at fields ≡ None → front (0x78 ∷ fields) ≡ 0x78 ∷ fields }
    ensures names { (more : List ℕ) → read_request (front (request_text Names ++ more)) ≡ Ok Names }
    ensures others { (tag : ℕ) (rest : List ℕ) → tag ≢ 0x78 → tag ≢ 0x6e → front (tag ∷ rest) ≡ tag ∷ rest }
{}

/// In whatever pieces a frame comes, it asks once, and for what the front of its body asks: a part of it is no question yet, the
/// whole is the question, and with bytes behind it nothing is asked.
pub fn a_frame_asks_once()
    ensures front { (local : Bool) (body part rest : List ℕ) → length body ≤ 4094 → 0 < length rest → body_frame w16 body ≡ part ++ rest →
        question local part ≡ Inside }
    ensures whole { (local : Bool) (body : List ℕ) → length body ≤ 4094
        → question local (body_frame w16 body) ≡ request_question local (read_request (front body)) }
    ensures behind { (local : Bool) (body more : List ℕ) → length body ≤ 4094 → 0 < length more →
        question local (body_frame w16 body ++ more) ≡ Nothing }
{}

/// The pieces of a question do not matter: in whatever pieces its frame comes from a client that just came, the turn of the last
/// piece, and what is left of the client and of the registry, are those of the whole frame.
pub fn any_pieces<S>()
    ensures { (conn : ℕ) (stream : S) (local : Bool) (since : ℕ) (body : List ℕ) (pieces : List (List ℕ)) (registrations : Registrations) →
        length body ≤ 4094 → AllByRecursion (λ piece. piece ≢ []) pieces → concat pieces ≡ body_frame w16 body →
        after_pieces conn (Some (new_client stream local since)) pieces registrations
        ≡ after_piece conn (Some (new_client stream local since)) (body_frame w16 body) registrations }
{}
