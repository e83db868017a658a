//! What a call for C answers.
ghost use Rattle.std.specs.Prelude.{◌≡◌, ◌≢◌, IfSome, None};
ghost use Rattle.plant_for_c.specs.Statuses.{number_of, message_of};
ghost use Rattle.plant_for_c.specs.declared.status.Status.{Status as CStatus};

/// What a call for C answers: that it did what was asked, or why not.
#[derive(Clone, Copy)]
pub enum Status {
    /// What was asked is done.
    Done,
    /// No interaction is possible.
    Stuck,
    /// Some atom is away, and no choice is sure to be allowed. No call for C takes an atom away.
    Busy,
    /// As many choices as a plant may have unacknowledged are fired since the last flush.
    TailFull,
    /// The ring has no room for another record.
    RingFull,
    /// The record with the greatest number is fired.
    Spent,
    /// The atom is away. No call for C takes an atom away.
    Away,
    /// The state of the atom includes firings that are not acknowledged.
    Ahead,
    /// What was handed in is not what the plant has kept of it. No call for C hands a state in.
    Stranger,
    /// There is nothing new to save, or nothing that may go.
    NothingNew,
    /// The device failed in this call.
    Disk,
    /// The device failed in an earlier call.
    Broken,
    /// The values are not what the inputs of the connector take.
    Values,
    /// The image was never formatted, or that was stopped.
    ImageNotFormatted,
    /// The image was formatted for another version of the layout.
    ImageOtherVersion,
    /// The image was formatted for another plant text.
    ImageOtherPlant,
    /// The image has not the size that it has to have.
    ImageWrongSize,
    /// A cell of the image holds nothing that may stand there. Told with it: the cell.
    ImageDamaged,
    /// Firings of an atom are missing among the records. Told with it: the atom.
    ImageGap,
    /// A record fires what its atom could not do. Told with it: the record and the atom.
    ImageNotEnabled,
    /// The device of the image failed.
    ImageDisk,
    /// The name of the file is taken.
    FileAlreadyThere,
    /// The file is not there, or its folder.
    FileNotThere,
    /// There is no right to the file or its folder.
    FileNotAllowed,
    /// It is no plain file.
    FileNotAFile,
    /// The system did not open the file for another reason.
    FileUnopened,
    /// The file is open already.
    FileInUse,
    /// It could not be asked whether the file is in use.
    FileUnlocked,
    /// The new file could not be filled.
    FileUnmade,
    /// What was written to the file before could not be put onto the disk.
    FileUnsynced,
    /// A pointer is null.
    Null,
    /// The variable holds nothing.
    Closed,
    /// The variable holds something else.
    NoHandle,
    /// The variable holds something already.
    AlreadyOpen,
    /// The text is no plant. Told with it: the line and the number of the fault.
    NoPlant,
    /// There is nothing with this name or number.
    NoSuch,
    /// The connector has several choices now.
    Several,
    /// The connector has no choice now.
    NoChoice,
    /// What is to be told does not fit the room.
    NoRoom,
    /// The ring would have too few records, or too many.
    BadRing,
    /// There is not enough memory.
    Memory,
}

impl Status {
    /// The number that C gets.
    pub fn number(&self) -> u32
        ensures { result ≡ number_of self.now }
    {
        match self {
            Status::Done => 0,
            Status::Stuck => 1,
            Status::Busy => 2,
            Status::TailFull => 3,
            Status::RingFull => 4,
            Status::Spent => 5,
            Status::Away => 6,
            Status::Ahead => 7,
            Status::Stranger => 8,
            Status::NothingNew => 9,
            Status::Disk => 10,
            Status::Broken => 11,
            Status::Values => 13,
            Status::ImageNotFormatted => 21,
            Status::ImageOtherVersion => 22,
            Status::ImageOtherPlant => 23,
            Status::ImageWrongSize => 24,
            Status::ImageDamaged => 25,
            Status::ImageGap => 26,
            Status::ImageNotEnabled => 27,
            Status::ImageDisk => 28,
            Status::FileAlreadyThere => 42,
            Status::FileNotThere => 43,
            Status::FileNotAllowed => 44,
            Status::FileNotAFile => 45,
            Status::FileUnopened => 46,
            Status::FileInUse => 48,
            Status::FileUnlocked => 49,
            Status::FileUnmade => 50,
            Status::FileUnsynced => 51,
            Status::Null => 61,
            Status::Closed => 62,
            Status::NoHandle => 63,
            Status::AlreadyOpen => 64,
            Status::NoPlant => 65,
            Status::NoSuch => 66,
            Status::Several => 67,
            Status::NoChoice => 68,
            Status::NoRoom => 69,
            Status::BadRing => 70,
            Status::Memory => 71,
        }
    }

    /// What it says to a person.
    pub fn message(&self) -> &'static str
        ensures { result.now ≡ message_of self.now }
    {
        match self {
            Status::Done => "done",
            Status::Stuck => "no interaction is possible",
            Status::Busy => "an atom is away, and no choice is sure to be allowed",
            Status::TailFull => "a flush has to come before another firing",
            Status::RingFull => "the ring has no room for another record: save and trim",
            Status::Spent => "the record with the greatest number is fired",
            Status::Away => "the atom is away",
            Status::Ahead => "firings of the atom are not acknowledged: flush first",
            Status::Stranger => "what was handed in is not what was kept of it",
            Status::NothingNew => "there is nothing new to save, or nothing that may go",
            Status::Disk => "the device failed",
            Status::Broken => "the device failed in an earlier call",
            Status::Values => "the values are not what the inputs of the connector take",
            Status::ImageNotFormatted =>
                "the image was never formatted, or formatting it was cut short",
            Status::ImageOtherVersion => "the image has another version of the layout",
            Status::ImageOtherPlant => "the image was formatted for another plant text",
            Status::ImageWrongSize => "the image does not have the size that it has to have",
            Status::ImageDamaged => "a cell of the image does not hold what was written to it",
            Status::ImageGap => "firings of an atom are missing in the image",
            Status::ImageNotEnabled => "a record of the image fires what its atom could not do",
            Status::ImageDisk => "the device of the image failed",
            Status::FileAlreadyThere => "the name of the file is taken",
            Status::FileNotThere => "no such file or folder",
            Status::FileNotAllowed => "no right to read and write the file",
            Status::FileNotAFile => "not a plain file",
            Status::FileUnopened => "the system could not open the file",
            Status::FileInUse => "the file is in use",
            Status::FileUnlocked => "no lock on the file: its file system may have none",
            Status::FileUnmade => "the file could not be filled: the disk may be full",
            Status::FileUnsynced => "what was written to the file before could not be saved",
            Status::Null => "a pointer is null",
            Status::Closed => "the variable holds no plant, no text or no file",
            Status::NoHandle => "the variable was not begun as it has to be",
            Status::AlreadyOpen => "the variable holds a plant, a text or a file already",
            Status::NoPlant => "the text is no plant",
            Status::NoSuch => "there is no such atom, connector, place, variable, choice or status",
            Status::Several => "the connector has several choices now",
            Status::NoChoice => "the connector has no choice now",
            Status::NoRoom => "what is to be told does not fit the room",
            Status::BadRing => "a ring has 8 to 4,096 records",
            Status::Memory => "there is not enough memory",
        }
    }

    /// The status with this number, if there is one.
    pub fn of_number(number: u32) -> Option<Status>
        ensures found { IfSome result (λ status. number_of status ≡ number) }
        ensures none { result ≡ None → (status : CStatus) → number_of status ≢ number }
    {
        match number {
            0 => Some(Status::Done),
            1 => Some(Status::Stuck),
            2 => Some(Status::Busy),
            3 => Some(Status::TailFull),
            4 => Some(Status::RingFull),
            5 => Some(Status::Spent),
            6 => Some(Status::Away),
            7 => Some(Status::Ahead),
            8 => Some(Status::Stranger),
            9 => Some(Status::NothingNew),
            10 => Some(Status::Disk),
            11 => Some(Status::Broken),
            13 => Some(Status::Values),
            21 => Some(Status::ImageNotFormatted),
            22 => Some(Status::ImageOtherVersion),
            23 => Some(Status::ImageOtherPlant),
            24 => Some(Status::ImageWrongSize),
            25 => Some(Status::ImageDamaged),
            26 => Some(Status::ImageGap),
            27 => Some(Status::ImageNotEnabled),
            28 => Some(Status::ImageDisk),
            42 => Some(Status::FileAlreadyThere),
            43 => Some(Status::FileNotThere),
            44 => Some(Status::FileNotAllowed),
            45 => Some(Status::FileNotAFile),
            46 => Some(Status::FileUnopened),
            48 => Some(Status::FileInUse),
            49 => Some(Status::FileUnlocked),
            50 => Some(Status::FileUnmade),
            51 => Some(Status::FileUnsynced),
            61 => Some(Status::Null),
            62 => Some(Status::Closed),
            63 => Some(Status::NoHandle),
            64 => Some(Status::AlreadyOpen),
            65 => Some(Status::NoPlant),
            66 => Some(Status::NoSuch),
            67 => Some(Status::Several),
            68 => Some(Status::NoChoice),
            69 => Some(Status::NoRoom),
            70 => Some(Status::BadRing),
            71 => Some(Status::Memory),
            _ => None,
        }
    }
}
