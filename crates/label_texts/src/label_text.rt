// Label text: a code's exact UTF-8 bytes, and the code of given bytes.
ghost use Rattle.std.specs.Prelude.{◌≡◌, ◌<◌};
ghost use Rattle.rule_types.specs.Number.{labels};
ghost use Rattle.label_texts.specs.LabelText.{bytes_of, text_of, code_of_bytes, code_of_text};

use rule_types::counts::LABELS;

// The most bytes of a label.
pub const MOST_BYTES: usize = 15;

// The code of bytes that are no label: one past the last.
pub const NO_LABEL: u8 = LABELS as u8;

// Bytes by value: the first len of them count, the others are zeros. A rule of the project: a host gets and gives a text whole, with no
// reference.
#[derive(Clone, Copy, Debug, PartialEq, Eq)]
pub struct Text {
    pub bytes: [u8; MOST_BYTES],
    pub len: u8,
}

// In the order of the codes.
const TEXTS: [&str; LABELS] = [
    "其他",
    "任意",
    "满足",
    "锤子",
    "上吊",
    "看涨吞没",
    "看跌吞没",
    "上升三法",
    "下降三法",
    "5K",
    "6K",
    "7K",
    "8K",
    "9K",
    "启明星",
    "黄昏星",
    "中间十字",
    "下跌分手",
    "上升分手",
    "箭在弦",
    "风中烛",
    "看空",
    "看多",
    "底部",
    "顶部",
    "实体标准",
    "常规",
    "加强",
    "半加强",
    "蜻蜓十字线",
    "墓碑十字线",
    "长腿十字线",
    "十字线",
    "北方",
    "看涨反击线",
    "看跌反击线",
    "向上跳空",
    "向下跳空",
];

// The label of a code.
fn label(code: u8) -> &'static str
    requires { code < labels }
    ensures { result.now ≡ bytes_of code }
{
    TEXTS[usize::from(code)]
}

// The same of any code; one above 37 has no bytes.
pub fn label_of(code: u8) -> &'static str
    ensures { result.now ≡ bytes_of code }
{
    if code < NO_LABEL { label(code) } else { "" }
}

// The text of a code; a code above 37 has no bytes.
pub fn text_of(code: u8) -> Text
    ensures { result ≡ text_of code }
{
    let label = label_of(code).as_bytes();
    let n = label.len();
    let mut bytes = [0; MOST_BYTES];
    bytes[..n].copy_from_slice(label);
    Text {
        bytes,
        len: n as u8,
    }
}

// The code of bytes; 38 for bytes that are no label.
pub fn code_of_bytes(s: &[u8]) -> u8
    ensures { result ≡ code_of_bytes s.now }
{
    for code in 0..NO_LABEL {
        if label(code).as_bytes() == s {
            return code;
        }
    }
    NO_LABEL
}

// The code of a text by value; 38 for one that is no label or counts more bytes than it has.
pub fn code_of_text(t: Text) -> u8
    ensures { result ≡ code_of_text t }
{
    let n = usize::from(t.len);
    let Some(s) = t.bytes.get(..n) else {
        return NO_LABEL;
    };
    code_of_bytes(s)
}
