//! A struct of as many fields as are described.

use serde_cbor::de::{Deserialize, DeserializeOwned, Read, ReadBy, Readable, read_described};
use serde_cbor::parts::Schema;
use serde_cbor::ser::{Serialize, Serializer, Write, WrittenBy};
use serde_cbor::{Deserializer, Result};

/// What a weather station saw in an hour.
#[derive(Debug, Drop)]
pub struct Weather {
    pub station: u32,
    pub day: u16,
    pub hour: u8,
    pub temperature: i16,
    pub pressure: u16,
    pub humidity: u8,
    pub wind: u8,
    pub gust: u8,
    pub bearing: u16,
    pub rain: u16,
    pub cloudy: bool,
    pub remark: String,
}

/// The names of its fields.
const WEATHER: &[&str] = &[
    "station",
    "day",
    "hour",
    "temperature",
    "pressure",
    "humidity",
    "wind",
    "gust",
    "bearing",
    "rain",
    "cloudy",
    "remark",
];

impl Schema for Weather {
    ghost use Rattle.std.specs.Prelude.{map};
    ghost use Rattle.row_types.specs.declared.weather.TheConstants.{WEATHER};

    type Parts = (u32, u16, u8, i16, u16, u8, u8, u8, u16, u16, bool, String);

    ghost names = { map (λ n. n.now) WEATHER.now };

    ghost parts = { λ w. (
      w.station,
      w.day,
      w.hour,
      w.temperature,
      w.pressure,
      w.humidity,
      w.wind,
      w.gust,
      w.bearing,
      w.rain,
      w.cloudy,
      w.remark,
    ) };

    fn names() -> &'static [&'static str] {
        WEATHER
    }

    fn from_parts(from: Self::Parts) -> Weather {
        let (
            station,
            day,
            hour,
            temperature,
            pressure,
            humidity,
            wind,
            gust,
            bearing,
            rain,
            cloudy,
            remark,
        ) = from;
        Weather {
            station,
            day,
            hour,
            temperature,
            pressure,
            humidity,
            wind,
            gust,
            bearing,
            rain,
            cloudy,
            remark,
        }
    }
}

impl Serialize for Weather {
    ghost document = { ⟦<Self as WrittenBy<<Self as Schema>::Parts>>⟧.document };

    fn serialize<W: Write>(&self, ser: &mut Serializer<W>) -> Result<()> {
        let fields = (
            &self.station,
            &self.day,
            &self.hour,
            &self.temperature,
            &self.pressure,
            &self.humidity,
            &self.wind,
            &self.gust,
            &self.bearing,
            &self.rain,
            &self.cloudy,
            &self.remark,
        );
        ser.serialize_fields(self, &fields)
    }
}

impl Readable for Weather {
    ghost reads = { ⟦<Self as ReadBy<<Self as Schema>::Parts>>⟧.reads };

    ghost wrong_forms = { ⟦<Self as ReadBy<<Self as Schema>::Parts>>⟧.wrong_forms };
}

impl<'de, R: Read<'de>> Deserialize<'de, R> for Weather {
    fn deserialize(de: &mut Deserializer<R>) -> Result<Weather> {
        read_described(de)
    }
}

impl DeserializeOwned for Weather {
    ghost same = { λ f a b r v h. h };
}
