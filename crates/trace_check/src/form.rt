ghost use Rattle.std.specs.Prelude.{◌≡◌, ◌↔◌, [], ◌∷◌, map, Some, None, string_bytes};
ghost use Rattle.trace_check.specs.Form.{HasCheckForm, IsCheckForm, form_tells};

/// The forms of the command: what is known of the reactor that the trace was made with. The
/// contract of the session names them.
#[derive(Clone, Copy, Debug, PartialEq, Eq)]
pub enum CheckForm {
    /// It tells its bytes, as the scripted world does.
    Told,
    /// It doesn't, as a network.
    Untold,
}

impl CheckForm {
    /// Whether the reactor tells its bytes.
    pub fn tells(self) -> bool
        ensures { result ≡ form_tells self }
    {
        self == CheckForm::Told
    }
}

/// The form of the command that the words are.
pub(crate) fn form_of(words: &[String]) -> Option<CheckForm>
    ensures some { (form : CheckForm) →
        (result ≡ Some form) ↔ IsCheckForm (map string_bytes words.now) form }
    ensures none { (result ≡ None) ↔ (HasCheckForm (map string_bytes words.now) → ⊥) }
{
    match words {
        [] => Some(CheckForm::Told),
        [word] => form_of_word(word),
        _ => None,
    }
}

/// The form with this one word.
fn form_of_word(word: &String) -> Option<CheckForm>
    ensures { (form : CheckForm) →
        (result ≡ Some form) ↔ IsCheckForm (string_bytes word.now ∷ []) form }
{
    if word.as_bytes() == b"--net".as_slice() {
        Some(CheckForm::Untold)
    } else {
        None
    }
}
