//! The forms in which games are written.
ghost use Rattle.std.specs.Prelude.{◌≡◌};
ghost use Rattle.forms.specs.Forms.{form_of, limit};

/// A form in which a game is written.
#[derive(Clone, Copy, Debug, PartialEq, Eq)]
pub enum Form {
    Drawing,
    Pgsolver,
}

impl Form {
    /// The form that a file is taken to have: PGSolver's where its name ends
    /// in `.pg`, else a drawing.
    pub fn of_path(path: &str) -> Form
        ensures { result ≡ form_of path.now }
    {
        if path.as_bytes().ends_with(b".pg") {
            Form::Pgsolver
        } else {
            Form::Drawing
        }
    }

    /// The most bytes of a text of this form.
    pub(crate) fn most(self) -> usize
        ensures { result ≡ limit self }
    {
        match self {
            Form::Drawing => drawing::MOST_BYTES,
            Form::Pgsolver => pgsolver::MOST_BYTES,
        }
    }
}

/// A form by its name; a name that is none comes back.
impl TryFrom<String> for Form {
    type Error = String;

    fn try_from(name: String) -> Result<Form, String> {
        match name.as_str() {
            "drawing" => Ok(Form::Drawing),
            "pgsolver" => Ok(Form::Pgsolver),
            _ => Err(name),
        }
    }
}
