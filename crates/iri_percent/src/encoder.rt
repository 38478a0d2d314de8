// Values whose text is encoded as they show it.
ghost use Rattle.std.specs.Prelude.{◌≡◌};
ghost use Rattle.iri_text.specs.Shown.{Shows};
ghost use Rattle.iri_percent.specs.Encoding.{keeps, encoded};

use crate::encode::put_encoded;
use crate::encoder_sink::Encoder;
use iri_grammar::spec::Spec;
use iri_text::{Show, Stop, TextSink};

impl<'s, S: Spec, W: TextSink> TextSink for Encoder<'s, S, W> {
    ghost use Rattle.iri_percent.specs.inside.EncoderText.{EncoderPuts, EncoderHalts, encoder_rules};

    ghost puts = { EncoderPuts S.tests W.puts };

    ghost halts = { EncoderHalts S.tests W.halts };

    ghost stops = { λ e. W.stops e.to.now };

    ghost rules = { encoder_rules S.tests W.rules };

    fn put(&mut self, piece: &str) -> Result<(), Stop> {
        put_encoded::<S, W>(&mut *self.to, self.context, piece)
    }
}

// Shows a value to the sink of an encoder.
pub(crate) fn show_encoded<T: Show, S: Spec, W: TextSink>(
    encoder: &mut Encoder<S, W>,
    value: &T,
) -> Result<(), Stop>
    ensures shows { Shows W.puts W.halts W.stops encoder.old.to.now
        (encoded (keeps S.tests encoder.old.context) (T.text value.now)) encoder.new.to.now result }
    ensures same { encoder.new.to.ghost_name ≡ encoder.old.to.ghost_name }
{
    value.show(encoder)
}
