ghost use Rattle.std.specs.Prelude.{◌≡◌, ◌↔◌, [], ◌∷◌, Some, None, map, string_bytes};
ghost use Rattle.trace_show.specs.ShowForm.{HasShowForm, IsShowForm, show_form_tells};

/// The forms of the command: what it shows of a trace, and what is known of the reactor that the
/// trace was made with. The contract of the session names them.
#[derive(Clone, Copy, Debug, PartialEq, Eq)]
pub enum ShowForm {
    /// The verdict and why, over a reactor that tells its bytes.
    Why,
    /// The same over one that doesn't, as a network.
    WhyUntold,
    /// A picture, over a reactor that tells its bytes.
    Picture,
    /// The same over one that doesn't.
    PictureUntold,
}

impl ShowForm {
    /// Whether the reactor tells its bytes.
    pub fn tells(self) -> bool
        ensures { result ≡ show_form_tells self }
    {
        match self {
            ShowForm::Why | ShowForm::Picture => true,
            ShowForm::WhyUntold | ShowForm::PictureUntold => false,
        }
    }
}

/// The form of the command that the words are.
pub(crate) fn form_of(words: &[String]) -> Option<ShowForm>
    ensures some { (form : ShowForm) →
        (result ≡ Some form) ↔ IsShowForm (map string_bytes words.now) form }
    ensures none { (result ≡ None) ↔ (HasShowForm (map string_bytes words.now) → ⊥) }
{
    match words {
        [showing] => form_of_word(showing),
        [showing, reactor] => form_of_words(showing, reactor),
        _ => None,
    }
}

/// The form with this one word.
fn form_of_word(word: &String) -> Option<ShowForm>
    ensures { (form : ShowForm) →
        (result ≡ Some form) ↔ IsShowForm (string_bytes word.now ∷ []) form }
{
    if word.as_bytes() == b"why".as_slice() {
        Some(ShowForm::Why)
    } else if word.as_bytes() == b"picture".as_slice() {
        Some(ShowForm::Picture)
    } else {
        None
    }
}

/// The form with these two words.
fn form_of_words(first: &String, second: &String) -> Option<ShowForm>
    ensures { (form : ShowForm) →
        (result ≡ Some form)
        ↔ IsShowForm (string_bytes first.now ∷ string_bytes second.now ∷ []) form }
{
    if second.as_bytes() != b"--net".as_slice() {
        return None;
    }
    if first.as_bytes() == b"why".as_slice() {
        Some(ShowForm::WhyUntold)
    } else if first.as_bytes() == b"picture".as_slice() {
        Some(ShowForm::PictureUntold)
    } else {
        None
    }
}
